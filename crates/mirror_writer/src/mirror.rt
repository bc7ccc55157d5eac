//! What goes to one mirror, and what came of it.

ghost use Rattle.std.specs.Prelude.{◌≡◌, ◌≤◌, ◌+◌, ◌++◌, ◌<◌, length, map, not, count_by, OnOk, slice_get, slice_set, true, if◌then◌else◌};
ghost use Rattle.std.specs.List.{filter};
ghost use Rattle.std.specs.VecDeque.{deque_len, deque_capacity};
ghost use Rattle.cluster_model.specs.DsCalls.{plain_ds_reply};
ghost use Rattle.mirror_writer.specs.Writers.{new_mirror, is_committed, is_call, next_at, with_out, queued, covered_flag, has_verifier, covered_by, with_write_answer, with_failure, without_call, with_writer_call, with_commit};
ghost use Rattle.mirror_writer.specs.Rooms.{HasSpareRoom, CanSend, writes_out, timeouts_of};
ghost use Rattle.mirror_writer.specs.MirrorSteps.{MirrorAfter, answered_there, write_answered_there, commit_answered_there, refused_there, failed_there, late_there, timed_out_there};

use crate::call::{MirrorOutcome, NextCall, WriteAnswer, WriterCall};
use crate::covering::{cover, requeue};
use cluster_model::{DsReply, LeftCause, MAX_TIMEOUTS, Mirror, MirrorId, SERVERFAULT};
use ff_xdr::NoMemory;
use std::alloc::Global;
use std::collections::VecDeque;
use std::marker::Model;
use std::mem;

/// ACCES, and STALE: the layout is no more (RFC 1813, section 2.6; RFC 8435, section 2.2).
pub const ACCES: u32 = 13;

pub const STALE: u32 = 70;

/// One mirror of a writer: what waits for it, what is out, and which taken writes it has for good.
#[derive(Debug, Drop)]
pub struct MirrorWrites {
    alloc: Global,
    id: MirrorId,
    // the taken writes that wait to be sent, in order
    queue: VecDeque<usize>,
    call: WriterCall,
    // the last answers to those that are not covered, in order
    answered: Vec<WriteAnswer>,
    // for each taken write, whether it is covered
    covered: Vec<bool>,
    // how many are not
    uncovered: usize,
    has_failed: bool,
}

impl Model for MirrorWrites {
    ghost use Rattle.mirror_writer.specs.Rooms.{RoomyMirror, IsRoomy};
    ghost use Rattle.std.specs.VecDeque.{deque_capacity};
    ghost use Rattle.std.specs.Vec.{vec_capacity};

    ghost Value = { RoomyMirror };

    ghost view = { λ m. record { mirror = record { id = m.id; queue = m.queue.items; call = m.call; answered = m.answered.items; covered = m.covered.items; has_failed = m.has_failed }; queue_room = deque_capacity m.queue; answer_room = vec_capacity m.answered; flag_room = vec_capacity m.covered } };

    ghost invariant = { λ m. IsRoomy (record { mirror = record { id = m.id; queue = m.queue.items; call = m.call; answered = m.answered.items; covered = m.covered.items; has_failed = m.has_failed }; queue_room = deque_capacity m.queue; answer_room = vec_capacity m.answered; flag_room = vec_capacity m.covered }) m.uncovered };
}

impl MirrorWrites {
    /// A mirror to which nothing was sent. Takes no memory.
    pub fn new(alloc: Global, mirror: Mirror) -> MirrorWrites
        ensures { result.mirror ≡ new_mirror mirror }
    {
        MirrorWrites {
            alloc,
            id: mirror.id,
            queue: VecDeque::new(alloc),
            call: WriterCall::NoCall,
            answered: Vec::new(alloc),
            covered: Vec::new(alloc),
            uncovered: 0,
            has_failed: false,
        }
    }

    /// Its name.
    pub fn id(&self) -> MirrorId
        ensures { result ≡ self.now.mirror.id }
    {
        self.id
    }

    /// It has failed.
    pub fn has_failed(&self) -> bool
        ensures { result ≡ self.now.mirror.has_failed }
    {
        self.has_failed
    }

    /// Each taken write is covered here.
    pub fn is_committed(&self) -> bool
        ensures { result ≡ is_committed self.now.mirror }
    {
        self.uncovered == 0
    }

    /// The taken write of this number, from 0, is covered here.
    pub fn covers(&self, n: usize) -> bool
        ensures { result ≡ covered_flag (slice_get self.now.mirror.covered n) }
    {
        match self.covered.get(n) {
            None => false,
            Some(flag) => *flag,
        }
    }

    /// Its call.
    pub fn call(&self) -> WriterCall
        ensures { result ≡ self.now.mirror.call }
    {
        self.call
    }

    /// Its call of this number is out.
    pub fn is_call(&self, xid: u32) -> bool
        ensures { result ≡ is_call xid self.now.mirror.call }
    {
        match self.call {
            WriterCall::NoCall => false,
            WriterCall::OutWrite { xid: own, .. } | WriterCall::OutCommit { xid: own, .. } => {
                own == xid
            }
        }
    }

    /// What goes out next, where a call may.
    pub fn next(&self, wants_commit: bool) -> Option<NextCall>
        ensures { result ≡ next_at wants_commit self.now.mirror }
    {
        if self.has_failed || self.call != WriterCall::NoCall {
            return None;
        }
        match self.queue.front() {
            Some(write) => Some(NextCall::SendsWrite(*write)),
            None if wants_commit && !self.is_committed() => Some(NextCall::SendsCommit),
            None => None,
        }
    }

    /// This call is out under this number from now on.
    pub fn send(&mut self, xid: u32, next: NextCall)
        requires { CanSend next self.old.mirror }
        ensures { self.new.mirror ≡ with_out xid next self.old.mirror }
    {
        match next {
            NextCall::SendsWrite(write) => {
                self.queue.pop_front();
                self.call = WriterCall::OutWrite {
                    xid,
                    write,
                    timeouts: 0,
                };
            }
            NextCall::SendsCommit => self.call = WriterCall::OutCommit { xid, timeouts: 0 },
        }
    }

    /// Room for one more write. At an error nothing has changed.
    pub fn reserve(&mut self) -> Result<(), NoMemory>
        ensures same { self.new.mirror ≡ self.old.mirror }
        ensures ok { OnOk result (HasSpareRoom self.new) }
    {
        let more = self.covered.len() + 1;
        self.queue.reserve(more)?;
        self.answered.reserve(more)?;
        self.covered.reserve(1)?;
        Ok(())
    }

    /// The taken write of this number waits. Takes no memory.
    pub fn queue(&mut self, n: usize)
        requires { HasSpareRoom self.old }
        ensures { self.new.mirror ≡ queued n self.old.mirror }
    {
        self.queue.push_back_reserved(n);
        self.covered.push_reserved(false);
        self.uncovered += 1;
    }

    /// What the answer to its call comes to. Takes no memory.
    pub fn answer(&mut self, reply: &DsReply<'_>) -> MirrorOutcome
        ensures { record { mirror = self.new.mirror; outcome = result } ≡ answered_there self.old.mirror (plain_ds_reply reply.now) self.old.mirror.call }
    {
        match self.call {
            WriterCall::NoCall => MirrorOutcome::Stranger,
            WriterCall::OutWrite { write, .. } => self.answer_write(write, reply),
            WriterCall::OutCommit { .. } => self.answer_commit(reply),
        }
    }

    /// The answer to its WRITE.
    fn answer_write(&mut self, write: usize, reply: &DsReply<'_>) -> MirrorOutcome
        requires { writes_out self.old.mirror.call ≡ 1 }
        ensures { record { mirror = self.new.mirror; outcome = result } ≡ write_answered_there self.old.mirror write (plain_ds_reply reply.now) }
    {
        match *reply {
            DsReply::Written { verifier, .. } => {
                self.answered.push_reserved(WriteAnswer { write, verifier });
                self.call = WriterCall::NoCall;
                MirrorOutcome::Waiting
            }
            DsReply::Failed { status, .. } => self.refused(status),
            _ => self.fail(LeftCause::Error(SERVERFAULT)),
        }
    }

    /// The answer to its COMMIT.
    fn answer_commit(&mut self, reply: &DsReply<'_>) -> MirrorOutcome
        ensures { record { mirror = self.new.mirror; outcome = result } ≡ commit_answered_there self.old.mirror (plain_ds_reply reply.now) }
    {
        match *reply {
            DsReply::Committed { verifier, .. } => {
                self.commit(verifier);
                MirrorOutcome::CommitOk
            }
            DsReply::Failed { status, .. } => self.refused(status),
            _ => self.fail(LeftCause::Error(SERVERFAULT)),
        }
    }

    /// It answered this status, another than OK.
    fn refused(&mut self, status: u32) -> MirrorOutcome
        ensures { record { mirror = self.new.mirror; outcome = result } ≡ refused_there self.old.mirror status }
    {
        if status == ACCES || status == STALE {
            self.call = WriterCall::NoCall;
            return MirrorOutcome::Fenced(status);
        }
        self.fail(LeftCause::Error(status))
    }

    /// It fails.
    fn fail(&mut self, cause: LeftCause) -> MirrorOutcome
        ensures { record { mirror = self.new.mirror; outcome = result } ≡ failed_there self.old.mirror cause }
    {
        self.call = WriterCall::NoCall;
        self.has_failed = true;
        MirrorOutcome::Failed(cause)
    }

    /// A COMMIT was answered OK: the answered writes with this verifier are covered, the others wait again.
    fn commit(&mut self, verifier: u64)
        ensures { self.new.mirror ≡ with_commit verifier self.old.mirror }
    {
        // taken out, so that the other fields can change while it is read
        let mut answered = mem::replace(&mut self.answered, Vec::new(self.alloc));
        requeue(&answered, verifier, &mut self.queue);
        self.uncovered -= cover(&answered, verifier, &mut self.covered);
        answered.clear();
        self.answered = answered;
        self.call = WriterCall::NoCall;
    }

    /// What a timeout of its call comes to.
    pub fn time_out(&mut self) -> MirrorOutcome
        ensures { record { mirror = self.new.mirror; outcome = result } ≡ late_there self.old.mirror self.old.mirror.call }
    {
        match self.call {
            WriterCall::NoCall => MirrorOutcome::Stranger,
            WriterCall::OutWrite {
                xid,
                write,
                timeouts,
            } => {
                let again = WriterCall::OutWrite {
                    xid,
                    write,
                    timeouts: timeouts + 1,
                };
                self.late(timeouts, again)
            }
            WriterCall::OutCommit { xid, timeouts } => {
                let again = WriterCall::OutCommit {
                    xid,
                    timeouts: timeouts + 1,
                };
                self.late(timeouts, again)
            }
        }
    }

    /// The third timeout is a failure; before it the call is out again.
    fn late(&mut self, timeouts: u32, again: WriterCall) -> MirrorOutcome
        requires same { writes_out again ≡ writes_out self.old.mirror.call }
        requires counted { timeouts_of again ≡ timeouts + 1 }
        requires known { timeouts ≤ 2 }
        ensures { record { mirror = self.new.mirror; outcome = result } ≡ timed_out_there self.old.mirror timeouts again }
    {
        if timeouts == MAX_TIMEOUTS - 1 {
            return self.fail(LeftCause::Timeouts);
        }
        self.call = again;
        MirrorOutcome::Waiting
    }
}
