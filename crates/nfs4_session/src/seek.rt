//! Which record is looked for.

ghost use Rattle.std.specs.Prelude.{◌≡◌, ◌<◌, length, IfSome, position, find, option_copied};
ghost use Rattle.std.specs.List.{list_any};
ghost use Rattle.nfs4_session.specs.Seeks.{is_sought};

use crate::client::ClientRecord;

/// Which record is looked for.
#[derive(Clone, Copy, Debug)]
pub enum Seek<'s> {
    /// The confirmed one of this verifier and this owner.
    Known { verifier: [u8; 8], owner: &'s [u8] },
    /// The unconfirmed one.
    Again { verifier: [u8; 8], owner: &'s [u8] },
    /// An unconfirmed one of this owner.
    Unconfirmed(&'s [u8]),
    /// A confirmed one.
    Confirmed(&'s [u8]),
    /// Any of this owner.
    OwnedBy(&'s [u8]),
    /// A confirmed one of this owner under another id.
    BeforeRestart { id: u64, owner: &'s [u8] },
    /// One whose lease has ended at this time, in seconds.
    Ended(u64),
}

/// How long a lease lasts, in seconds.
pub const LEASE: u64 = 90;

impl ClientRecord {
    /// It is one of those that are looked for.
    fn is_sought(&self, seek: Seek<'_>) -> bool
        ensures { result ≡ is_sought seek.entry self.now }
    {
        match seek {
            Seek::Known { verifier, owner } => self.is_by(verifier, owner) && self.is_confirmed(),
            Seek::Again { verifier, owner } => self.is_by(verifier, owner) && !self.is_confirmed(),
            Seek::Unconfirmed(owner) => self.is_owned_by(owner) && !self.is_confirmed(),
            Seek::Confirmed(owner) => self.is_owned_by(owner) && self.is_confirmed(),
            Seek::OwnedBy(owner) => self.is_owned_by(owner),
            Seek::BeforeRestart { id, owner } => {
                self.is_owned_by(owner) && self.is_confirmed() && self.id() != id
            }
            // more than 90 s before, with no sum that could be too large
            Seek::Ended(now) => now.saturating_sub(self.renewed()) > LEASE,
        }
    }
}

/// The place of the first record that is looked for, from 0.
pub fn first(clients: &[ClientRecord], seek: Seek<'_>) -> Option<usize>
    ensures exact { result ≡ position (is_sought seek.entry) clients.now }
    ensures within { IfSome result (λ place. place < length clients.now) }
{
    for (place, client) in clients.iter().enumerate() {
        if client.is_sought(seek) {
            return Some(place);
        }
    }
    None
}

/// The first record that is looked for.
pub fn sought<'c>(clients: &'c [ClientRecord], seek: Seek<'_>) -> Option<&'c ClientRecord>
    ensures { option_copied result ≡ find (is_sought seek.entry) clients.now }
{
    match first(clients, seek) {
        Some(place) => Some(&clients[place]),
        None => None,
    }
}

/// One that is looked for is there.
pub fn any(clients: &[ClientRecord], seek: Seek<'_>) -> bool
    ensures { result ≡ list_any (is_sought seek.entry) clients.now }
{
    first(clients, seek).is_some()
}
