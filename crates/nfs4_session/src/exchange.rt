//! EXCHANGE_ID.

ghost use Rattle.std.specs.Prelude.{◌≡◌, ◌+◌, ◌<◌, ◌^◌, OnOk, OnErr, IfOk, is_some};
ghost use Rattle.std.specs.Bool.{OnFalse};
ghost use Rattle.nfs4_session.specs.ExchangeIds.{Exchanges, exchange_case, exchange_fault, case_of_others, after_exchange, new_client, exchanged};
ghost use Rattle.nfs4_session.specs.Exchanging.{record_known, is_new_owner};

use crate::change::Change;
use crate::seek::{Seek, any, first, sought};
use crate::sessions::Sessions;
use crate::{Exchanged, IdFault};
use ff_xdr::NoMemory;

/// The most owners that are known.
pub const MAX_OWNERS: usize = 256;

impl Sessions {
    /// Gives a client its record (RFC 8881, section 18.35): the one that it has, or a new one. `now` is the
    /// time in seconds. The flags are passed over, so nothing is updated.
    ///
    /// A confirmed record is thrown away only by CREATE_SESSION; an unconfirmed one of another verifier at once.
    ///
    /// # Errors
    /// `Full` where 256 owners are known and this one is not, or the numbers of clients are spent; `NoMemory` where
    /// memory is wanted. Nothing changes then.
    pub fn exchange_id(
        &mut self,
        verifier: [u8; 8],
        owner: &[u8],
        now: u64,
    ) -> Result<Exchanged, IdFault>
        ensures { Exchanges self.old verifier owner.now now result self.new }
    {
        if let Some(known) = self.record_known(verifier, owner) {
            self.change(known.client, Change::Renew(now));
            return Ok(known);
        }
        if self.refuses_owner(owner) {
            return Err(IdFault::Full);
        }
        match self.take_in(verifier, owner, now) {
            Ok(answer) => Ok(answer),
            Err(NoMemory) => Err(IdFault::NoMemory),
        }
    }

    /// The record of this verifier and this owner.
    fn record_known(&self, verifier: [u8; 8], owner: &[u8]) -> Option<Exchanged>
        ensures { result ≡ record_known (exchange_case self.now.clients verifier owner.now) }
    {
        let clients = self.clients();
        if let Some(record) = sought(clients, Seek::Known { verifier, owner }) {
            return Some(record.exchanged());
        }
        match sought(clients, Seek::Again { verifier, owner }) {
            Some(record) => Some(record.exchanged()),
            None => None,
        }
    }

    /// A new record is refused to this owner.
    fn refuses_owner(&self, owner: &[u8]) -> bool
        ensures exact { result ≡ is_some (exchange_fault self.now (case_of_others self.now.clients owner.now)) }
        ensures spare { OnFalse result (self.now.ids + 1 < 2 ^ 32) }
    {
        if self.are_ids_spent() {
            return true;
        }
        if !self.is_new(owner) {
            return false;
        }
        self.known_owners() >= MAX_OWNERS
    }

    /// This owner is not known.
    fn is_new(&self, owner: &[u8]) -> bool
        ensures { result ≡ is_new_owner (case_of_others self.now.clients owner.now) }
    {
        if any(self.clients(), Seek::Unconfirmed(owner)) {
            return false;
        }
        !any(self.clients(), Seek::Confirmed(owner))
    }

    /// Puts a new record of this owner behind the others; an unconfirmed one is thrown away. At an error nothing has
    /// changed.
    fn take_in(&mut self, verifier: [u8; 8], owner: &[u8], now: u64) -> Result<Exchanged, NoMemory>
        requires { self.old.ids + 1 < 2 ^ 32 }
        ensures answer { IfOk result (λ answer. answer ≡ exchanged (new_client self.old verifier owner.now now)) }
        ensures ok { OnOk result (self.new ≡ after_exchange self.old verifier owner.now now (case_of_others self.old.clients owner.now)) }
        ensures err { OnErr result (self.new ≡ self.old) }
    {
        let replaced = first(self.clients(), Seek::Unconfirmed(owner));
        let client = self.add_client(owner, verifier, now)?;
        if let Some(place) = replaced {
            self.remove(place);
        }
        Ok(Exchanged {
            client,
            sequence: 1,
            confirmed: false,
        })
    }
}
