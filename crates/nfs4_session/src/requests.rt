//! Requests on slots.

ghost use Rattle.std.specs.Prelude.{◌≡◌, ⊤};
ghost use Rattle.std.specs.Borrow.{sem, follows_so};
ghost use mathlib.Core.Option.{none};
ghost use Rattle.nfs4_session.specs.Clients.{session_of};
ghost use Rattle.nfs4_session.specs.Requests.{BeginsRequest, after_request, after_finish, request_answer, pass_of};
ghost use Rattle.nfs4_session.specs.Turns.{turn_of, kept_in_session};
ghost use Rattle.nfs4_session.specs.Beginning.{AnswersTurn, table_begun};
ghost use Rattle.nfs4_session.specs.contracts.sessions.Sessions.{the_row};

use crate::change::Change;
use crate::ids::{client_in, number_in};
use crate::sessions::Sessions;
use crate::slot::Turn;
use crate::{Begin, SlotPass};
use nfs4_types::{Sequence, Stat4};

impl Sessions {
    /// What a request comes to (SEQUENCE, RFC 8881, section 18.46). One that takes effect is in progress until
    /// `finish`, and renews its client's lease; `now` is the time in seconds. Takes no memory.
    ///
    /// It is refused, and nothing changes, with BADSESSION, BADSLOT, SEQ_MISORDERED, DELAY where it is still in
    /// progress, and RETRY_UNCACHED_REP where its reply was too long to be kept.
    pub fn begin(&mut self, sequence: &Sequence, now: u64) -> Begin<'_>
        ensures* begins { sem 𝓛 (follows_so the_row the_row self.entry.ghost_name none (λ _ _. ⊤) (λ new. BeginsRequest self.old sequence.now now result new)) }
    {
        let turn = self.take_turn(sequence, now);
        self.answer(sequence, turn)
    }

    /// What a request comes to; where it takes effect it is in progress from now on.
    fn take_turn(&mut self, request: &Sequence, now: u64) -> Turn
        ensures turn { result ≡ turn_of (request_answer self.old request.now) }
        ensures after { self.new ≡ table_begun self.old (after_request self.old request.now now) (request_answer self.old request.now) }
    {
        let turn = self.turn(request);
        if let Turn::TakesEffect = turn {
            self.change(
                client_in(request.session),
                Change::Begin {
                    session: number_in(request.session),
                    slot: request.slot,
                    number: request.sequence,
                    now,
                },
            );
        }
        turn
    }

    /// The answer to a request whose turn this is.
    fn answer(&self, request: &Sequence, turn: Turn) -> Begin<'_>
        ensures { AnswersTurn self.now request.now turn result }
    {
        match turn {
            Turn::TakesEffect => Begin::New {
                client: client_in(request.session),
                slot: pass_of(request),
            },
            Turn::Repeats => Begin::Replay(self.kept(request)),
            Turn::Refuses(status) => Begin::Refused(status),
        }
    }

    /// A request is done: its reply is kept where it has at most 32,768 bytes. Of a session that is gone nothing is
    /// done. Takes no memory.
    pub fn finish(&mut self, slot: SlotPass, reply: &[u8])
        ensures { self.new ≡ after_finish self.old slot reply.now }
    {
        self.change(
            client_in(slot.session),
            Change::Finish {
                session: number_in(slot.session),
                slot: slot.slot,
                number: slot.sequence,
                reply,
            },
        );
    }

    /// What a request comes to.
    fn turn(&self, request: &Sequence) -> Turn
        ensures { result ≡ turn_of (request_answer self.now request.now) }
    {
        match self.record(client_in(request.session)) {
            Some(record) => record.turn(number_in(request.session), request),
            None => Turn::Refuses(Stat4::BadSession),
        }
    }

    /// The kept reply of a request's slot, or no bytes.
    fn kept(&self, request: &Sequence) -> &[u8]
        ensures { result.now ≡ kept_in_session request.now.slot (session_of self.now.clients request.now.session) }
    {
        match self.record(client_in(request.session)) {
            Some(record) => record.kept(number_in(request.session), request.slot),
            None => &[],
        }
    }
}

/// The pass of a request that takes effect.
fn pass_of(request: &Sequence) -> SlotPass
    ensures { result ≡ pass_of request.now }
{
    SlotPass {
        session: request.session,
        slot: request.slot,
        sequence: request.sequence,
    }
}
