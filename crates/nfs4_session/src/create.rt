//! CREATE_SESSION.

ghost use Rattle.std.specs.Prelude.{◌≡◌, ◌+◌, ◌<◌, ◌^◌, find, length, IsSome, IfSome, IfOk, IfNone};
ghost use Rattle.nfs4_session.specs.Clients.{has_id, with_clients};
ghost use Rattle.nfs4_session.specs.CreateSessions.{CreatesSession, create_session_case};
ghost use Rattle.nfs4_session.specs.Asked.{case_result, place_before_restart, id_at, without_place, CreatesDue};

use crate::ids::session_id;
use crate::seek::{Seek, first};
use crate::session::Session;
use crate::sessions::Sessions;
use crate::{Created, SessionFault};
use cluster_model::NodeId;
use ff_xdr::NoMemory;
use nfs4_types::ChannelAttrs;

impl Sessions {
    /// Makes a client's session, and confirms its record (RFC 8881, section 18.36). The room of its eight kept replies
    /// is taken before anything changes. `now` is the time in seconds, `program` the client's program of callbacks.
    ///
    /// The flags and the channels' attributes are answered by the server above, and are not kept.
    ///
    /// # Errors
    /// `StaleClient`, `Misordered`, `Full`, and `NoMemory` where memory is wanted. Nothing changes then.
    pub fn create_session(
        &mut self,
        client: u64,
        sequence: u32,
        _flags: u32,
        _fore: &ChannelAttrs,
        _back: &ChannelAttrs,
        program: u32,
        node: NodeId,
        now: u64,
    ) -> Result<Created, SessionFault>
        ensures { CreatesSession self.old client sequence program node now result self.new }
    {
        match self.asked(client, sequence)? {
            Some(number) => Ok(Created {
                session: session_id(client, number),
                gone: None,
                replayed: true,
            }),
            None => self.make_session(client, program, node, now),
        }
    }

    /// The session that a CREATE_SESSION of this number made already, or none where one is due.
    fn asked(&self, client: u64, sequence: u32) -> Result<Option<u64>, SessionFault>
        ensures exact { result ≡ case_result (create_session_case self.now client sequence) }
        ensures spare { IfOk result (λ made. IfNone made (self.now.numbers + 1 < 2 ^ 64)) }
    {
        match self.record(client) {
            Some(record) => record.asked(sequence, self.are_numbers_spent()),
            None => Err(SessionFault::StaleClient),
        }
    }

    /// The place of the record that a client had before its restart, from 0.
    fn before_restart(&self, client: u64) -> Option<usize>
        ensures exact { result ≡ place_before_restart self.now.clients (find (has_id client) self.now.clients) }
        ensures within { IfSome result (λ place. place < length self.now.clients) }
    {
        let record = self.record(client)?;
        let seek = Seek::BeforeRestart {
            id: record.id(),
            owner: record.owner(),
        };
        first(self.clients(), seek)
    }

    /// The id of the record at a place, if one is named.
    fn id_at(&self, place: Option<usize>) -> Option<u64>
        requires { IfSome place (λ at. at < length self.now.clients) }
        ensures { result ≡ id_at self.now.clients place }
    {
        match place {
            Some(place) => Some(self.clients()[place].id()),
            None => None,
        }
    }

    /// Takes out the record at a place, if one is named.
    fn remove_at(&mut self, place: Option<usize>)
        requires { IfSome place (λ at. at < length self.old.clients) }
        ensures { self.new ≡ with_clients self.old (without_place self.old.clients place) }
    {
        if let Some(place) = place {
            self.remove(place);
        }
    }

    /// Makes the session that is due. The client before its restart goes, with its sessions.
    fn make_session(
        &mut self,
        client: u64,
        program: u32,
        node: NodeId,
        now: u64,
    ) -> Result<Created, SessionFault>
        requires known { IsSome (find (has_id client) self.old.clients) }
        requires spare { self.old.numbers + 1 < 2 ^ 64 }
        ensures { CreatesDue self.old (find (has_id client) self.old.clients) client program node now result self.new }
    {
        let number = self.numbers() + 1;
        let Ok(session) = Session::new(self.alloc(), number, node, program) else {
            return Err(SessionFault::NoMemory);
        };
        let place = self.before_restart(client);
        let gone = self.id_at(place);
        if self.add_session(client, session, now).is_err() {
            return Err(SessionFault::NoMemory);
        }
        self.count_session();
        self.remove_at(place);
        Ok(Created {
            session: session_id(client, number),
            gone,
            replayed: false,
        })
    }
}
