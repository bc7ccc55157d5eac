//! Bindings, callbacks, and how sessions, clients and leases end.

ghost use Rattle.std.specs.Prelude.{◌≡◌, find, is_some, option_copied};
ghost use Rattle.nfs4_session.specs.Clients.{has_id, session_of};
ghost use Rattle.nfs4_session.specs.Bindings.{OnSession, after_binding, CallsBack, last_session};
ghost use Rattle.nfs4_session.specs.Ends.{without_session, DestroysClient, Expires};
ghost use Rattle.nfs4_session.specs.Calling.{next_back_call};

use crate::BackCall;
use crate::change::Change;
use crate::ids::{client_in, number_in, session_id};
use crate::seek::{Seek, sought};
use crate::sessions::Sessions;
use cluster_model::NodeId;
use nfs4_types::{SessionId, Stat4};

impl Sessions {
    /// Binds a session to the node from which its last record came (RFC 8881, sections 2.10.3.1 and 18.34). It counts
    /// as its client's last, so callbacks go there. Takes no memory.
    ///
    /// # Errors
    /// BADSESSION where it is not there; nothing changes then.
    pub fn bind(&mut self, session: SessionId, node: NodeId) -> Result<(), Stat4>
        ensures { OnSession (session_of self.old.clients session) result self.old (after_binding self.old session node) self.new }
    {
        if !self.has_session(session) {
            return Err(Stat4::BadSession);
        }
        let number = number_in(session);
        self.change(
            client_in(session),
            Change::Bind {
                session: number,
                node,
            },
        );
        Ok(())
    }

    /// The next callback to a client, on the session that was made or bound last (RFC 8881, section 20.9); its number
    /// is used then. `None` where the client or a session of it is not there. Takes no memory.
    pub fn back_channel(&mut self, client: u64) -> Option<BackCall>
        ensures { CallsBack self.old client result self.new }
    {
        let (session, call) = self.next_back_call(client)?;
        self.change(client, Change::CallBack { session });
        Some(call)
    }

    /// Destroys a session (RFC 8881, section 18.37). Takes no memory.
    ///
    /// # Errors
    /// BADSESSION where it is not there; nothing changes then.
    pub fn destroy_session(&mut self, session: SessionId) -> Result<(), Stat4>
        ensures { OnSession (session_of self.old.clients session) result self.old (without_session self.old session) self.new }
    {
        if !self.has_session(session) {
            return Err(Stat4::BadSession);
        }
        let number = number_in(session);
        self.change(client_in(session), Change::Destroy { session: number });
        Ok(())
    }

    /// Destroys a client's record, which has no session (RFC 8881, section 18.50). Takes no memory.
    ///
    /// # Errors
    /// STALE_CLIENTID where it is not there, CLIENTID_BUSY where it has sessions; nothing changes then.
    pub fn destroy_client(&mut self, client: u64) -> Result<(), Stat4>
        ensures { DestroysClient self.old client result self.new }
    {
        match self.record(client) {
            None => return Err(Stat4::StaleClientId),
            Some(record) if record.is_busy() => return Err(Stat4::ClientIdBusy),
            Some(_) => {}
        }
        self.forget(client);
        Ok(())
    }

    /// Ends one lease, if one has ended: it was renewed last more than 90 s before `now`, in seconds (RFC 8881, section
    /// 8.3). Its record is taken out with its sessions, and the answer is its id. Takes no memory.
    pub fn expire(&mut self, now: u64) -> Option<u64>
        ensures { Expires self.old now result self.new }
    {
        let client = sought(self.clients(), Seek::Ended(now))?.id();
        self.forget(client);
        Some(client)
    }

    /// The session is there.
    pub fn has_session(&self, session: SessionId) -> bool
        ensures { result ≡ is_some (session_of self.now.clients session) }
    {
        match self.record(client_in(session)) {
            Some(record) => record.has_session(number_in(session)),
            None => false,
        }
    }

    /// The next callback to a client, with the number of its session.
    fn next_back_call(&self, client: u64) -> Option<(u64, BackCall)>
        ensures { result ≡ next_back_call client (last_session (find (has_id client) self.now.clients)) }
    {
        let last = self.record(client)?.last()?;
        let number = last.number();
        Some((number, last.back_call(session_id(client, number))))
    }
}
