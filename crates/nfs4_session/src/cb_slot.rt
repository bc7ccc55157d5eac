//! The one slot for callbacks, at the client.

ghost use Rattle.std.specs.Prelude.{◌≡◌};
ghost use Rattle.nfs4_session.specs.CallbackSlot.{new_cb_slot, cb_begin, after_cb_begin, with_cb_status};

use crate::next_sequence;
use nfs4_types::{SessionId, Stat4};
use std::marker::Model;

/// What CB_SEQUENCE comes to at the slot (RFC 8881, section 20.9).
#[derive(Clone, Copy, Debug, PartialEq, Eq)]
pub enum CbBegin {
    /// The callback takes effect.
    New,
    /// It came before, and its recall was answered with this status.
    Again(Stat4),
    /// Its number is neither the next nor, where a status is kept, the last.
    Misordered,
}

/// The one slot for callbacks of a session, at its client (RFC 8881, section 2.10.6). No call takes memory.
#[derive(Clone, Copy, Debug, PartialEq, Eq)]
pub struct CbSlot {
    session: SessionId,
    last: u32,
    kept: Option<Stat4>,
}

impl Model for CbSlot {
    ghost use Rattle.nfs4_session.specs.CallbackSlot.{CbSlotState};

    ghost Value = { CbSlotState };

    ghost view = { λ s. record { session = s.session; last = s.last; kept = s.kept } };

    ghost inverse = { λ s. record { session = s.session; last = s.last; kept = s.kept } };
}

impl CbSlot {
    /// The slot of a new session: the first callback has the number 1.
    pub fn new(session: SessionId) -> CbSlot
        ensures { result ≡ new_cb_slot session }
    {
        CbSlot {
            session,
            last: 0,
            kept: None,
        }
    }

    /// The session.
    pub fn session(&self) -> SessionId
        ensures { result ≡ self.now.session }
    {
        self.session
    }

    /// Takes a callback of this number.
    pub fn take(&mut self, sequence: u32) -> CbBegin
        ensures answer { result ≡ cb_begin self.old sequence }
        ensures after { self.new ≡ after_cb_begin self.old sequence result }
    {
        if sequence == self.last {
            return match self.kept {
                Some(status) => CbBegin::Again(status),
                None => CbBegin::Misordered,
            };
        }
        if sequence != next_sequence(self.last) {
            return CbBegin::Misordered;
        }
        self.last = sequence;
        self.kept = None;
        CbBegin::New
    }

    /// The recall of the last callback was answered with this status. A second one takes the place of the first.
    pub fn kept(&mut self, status: Stat4)
        ensures { self.new ≡ with_cb_status self.old status }
    {
        self.kept = Some(status);
    }
}
