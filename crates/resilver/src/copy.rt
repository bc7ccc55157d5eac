//! A copy of one file.

ghost use Rattle.std.specs.Prelude.{◌≡◌, ◌≤◌, ⊤, true, length, None, OnErr};
ghost use Rattle.std.specs.Borrow.{sem, follows_so};
ghost use mathlib.Core.Option.{none};
ghost use Rattle.cluster_model.specs.DsCalls.{plain_ds_call, plain_ds_reply, data_in, Bytes};
ghost use Rattle.copy_rule.specs.Copies.{new_copy, has_outcome, goes_on, step_told, copy_then, source_fails, is_long, read_late, outcome, on_timeout, after_tick, is_read_due, is_outstanding};
ghost use Rattle.resilver.specs.contracts.copy.Copy.{the_row};
ghost use Rattle.resilver.specs.Calls.{SendsCopyCall, LendsOnePiece, TakesAnswer, servers_waiting, kept_out};
ghost use Rattle.resilver.specs.Sends.{SendsBeforeLent, call_as, TakesRead, BringsPiece, AsksForPiece};

use crate::call::{NextCall, SentCall, caller_for};
use crate::target::{answered, at_stage, next_for, timed_out, to_make};
use crate::targets::{
    are_given_up, are_over, is_out_to, outstanding, servers_of_waiting, swaps, waiting, write_all,
};
use arrayvec::ArrayVec;
use call_stage::{is_out, is_over, kept_out_to, stage_at_tick, waits};
use cluster_model::{
    CallStage, Cred, DsCall, DsReply, LeftCause, MAX_FILE, MAX_TIMEOUTS, Mirror, MirrorId,
    PIECE_SIZE, SERVERFAULT, Targets,
};
use copy_rule::{CopyStep, CopyTarget, Target};
use ff_xdr::{Data, NoMemory};
use std::alloc::Global;
use std::marker::Model;

/// A fresh file is made at each target by a CREATE; the source is READ in pieces of 65,536 bytes, and each piece goes to
/// every target that is left by a FILE_SYNC WRITE (RFC 8435, section 8.3; RFC 1813, sections 3.3.6 to 3.3.8). One piece is
/// kept, once for all targets. At most one call is outstanding a target.
#[derive(Debug, Drop)]
pub struct Copy {
    alloc: Global,
    copier: Cred,
    source: MirrorId,
    // the piece in hand and its place, and whether the source ends behind it
    at: u64,
    piece: Data,
    ended: bool,
    read: CallStage,
    targets: ArrayVec<CopyTarget, 4>,
}

impl Model for Copy {
    ghost use Rattle.std.specs.Prelude.{◌≤◌, ◌+◌, length};
    ghost use Rattle.cluster_model.specs.declared.limits.TheConstants.{MAX_FILE, PIECE_SIZE};
    ghost use Rattle.copy_rule.specs.Copies.{CopyState};

    ghost Value = { CopyState };

    ghost view = { λ c. record { copier = c.copier.0; source = c.source; at = c.at; piece = c.piece; ended = c.ended; read = c.read; targets = c.targets.items } };

    ghost invariant = { λ c. (length c.piece ≤ PIECE_SIZE) × (c.at + length c.piece ≤ MAX_FILE) };
}

impl Copy {
    /// A copy from this mirror, by this uid, to the targets of a plan, at most four. Takes no memory.
    pub fn start(alloc: Global, source: Mirror, plan: &[Target], cred: Cred) -> Copy
        requires few { length plan.now ≤ 4 }
        ensures { result ≡ new_copy source.id plan.now cred.0 }
    {
        let mut targets = ArrayVec::new();
        for target in plan {
            targets.push(to_make(*target));
        }
        Copy {
            alloc,
            copier: cred,
            source: source.id,
            at: 0,
            piece: Data::from_vec(Vec::new(alloc)),
            ended: false,
            read: CallStage::Waits,
            targets,
        }
    }

    /// The call that goes out next, and to which server: it is outstanding from now on under this number. `None` where none
    /// waits, and once the copy has an outcome. The first target to which a call waits comes first; the source is READ once
    /// every target that is left has answered. No call of this number is outstanding before. Takes no memory.
    #[tactic(auto, using(crate::proofs::Ended::quiet_outcome))]
    pub fn next_call(&mut self, xid: u32) -> Option<(u32, DsCall<'_>)>
        ensures few { LendsOnePiece result }
        ensures ended { has_outcome self.old ≡ true → result ≡ None }
        ensures* sends { sem 𝓛 (follows_so the_row the_row self.entry.ghost_name none (λ _ _. ⊤) (λ new. SendsCopyCall self.old xid result new)) }
    {
        let sent = self.send_next(xid)?;
        Some((sent.server, self.lend(sent.call)))
    }

    /// The same, with the call that is to be lent then. Takes no memory.
    pub fn send_next(&mut self, xid: u32) -> Option<SentCall>
        ensures { SendsBeforeLent self.old xid result self.new }
    {
        let out = CallStage::Out { xid, timeouts: 0 };
        if let Some(place) = waiting(self.targets.as_slice()) {
            let target = self.targets[place];
            self.targets[place] = at_stage(target, out);
            let call = next_for(self.copier, target);
            return Some(SentCall {
                server: target.server,
                uid: caller_for(self.copier, call),
                call,
            });
        }
        if self.is_read_due() {
            self.read = out;
            return Some(SentCall {
                server: self.source.server,
                uid: 0,
                call: NextCall::ReadsSource {
                    fileid: self.source.fileid,
                    at: self.at,
                },
            });
        }
        None
    }

    /// This call, as the copy stands.
    pub fn lend(&self, call: NextCall) -> DsCall<'_>
        ensures few { length (data_in (plain_ds_call result)) ≤ PIECE_SIZE }
        ensures lends { plain_ds_call result ≡ call_as self.now call }
    {
        match call {
            NextCall::MakesFile { name, owner } => DsCall::Create { name, owner },
            NextCall::WritesPiece { fileid } => DsCall::Write {
                fileid,
                at: self.at,
                synced: true,
                bytes: self.piece.bytes(),
            },
            NextCall::ReadsSource { fileid, at } => DsCall::Read {
                fileid,
                at,
                count: PIECE_SIZE,
            },
        }
    }

    /// The READ of the source waits, every target that is left has answered, and the copy has no outcome.
    fn is_read_due(&self) -> bool
        ensures { result ≡ is_read_due self.now }
    {
        waits(self.read) && are_over(self.targets.as_slice()) && !self.has_outcome()
    }

    /// The servers to which a call waits, in order: the first is that of the next call. Takes no memory.
    pub fn waiting_servers(&self) -> ArrayVec<u32, 4>
        ensures { result.items ≡ servers_waiting self.now }
    {
        if let Some(_) = waiting(self.targets.as_slice()) {
            return servers_of_waiting(self.targets.as_slice());
        }
        let mut servers = ArrayVec::new();
        if self.is_read_due() {
            servers.push(self.source.server);
        }
        servers
    }

    /// A call of this number is outstanding to this server.
    pub fn is_outstanding(&self, server: u32, xid: u32) -> bool
        ensures { result ≡ is_outstanding self.now server xid }
    {
        is_out_to(server, xid, self.targets.as_slice())
            || (self.source.server == server && is_out(xid, self.read))
    }

    /// The READ that is kept outstanding until the next tick, by its server and number.
    pub fn kept_out(&self) -> Option<(u32, u32)>
        ensures { result ≡ kept_out self.now }
    {
        kept_out_to(self.source.server, self.read)
    }

    /// What the answer to the call of this number comes to: `Stranger` where none is outstanding. Takes memory for a piece
    /// that was READ; where memory is wanted, nothing has changed.
    pub fn on_reply(&mut self, xid: u32, reply: &DsReply<'_>) -> Result<CopyStep, NoMemory>
        ensures takes { TakesAnswer self.old xid (plain_ds_reply reply.now) result self.new }
        ensures memory { OnErr result (AsksForPiece self.old xid (plain_ds_reply reply.now)) }
    {
        if let Some(place) = outstanding(xid, self.targets.as_slice()) {
            let (target, step) = answered(self.targets[place], reply);
            self.targets[place] = target;
            return Ok(self.go_on(step));
        }
        if is_out(xid, self.read) {
            return self.answer_read(reply);
        }
        Ok(CopyStep::Stranger)
    }

    /// What the answer to the READ comes to.
    fn answer_read(&mut self, reply: &DsReply<'_>) -> Result<CopyStep, NoMemory>
        ensures takes { TakesRead self.old (plain_ds_reply reply.now) result self.new }
        ensures memory { OnErr result (BringsPiece self.old (plain_ds_reply reply.now)) }
    {
        match *reply {
            DsReply::Bytes { eof, bytes, .. } => self.take_piece(eof, bytes),
            DsReply::Failed { status, .. } => {
                Ok(self.fail_source(CallStage::KeptBack, LeftCause::Error(status)))
            }
            _ => Ok(self.fail_source(CallStage::KeptBack, LeftCause::Error(SERVERFAULT))),
        }
    }

    /// The source answered with these bytes, and whether it ends behind them.
    fn take_piece(&mut self, eof: bool, bytes: &[u8]) -> Result<CopyStep, NoMemory>
        ensures takes { TakesRead self.old (Bytes None eof bytes.now) result self.new }
        ensures memory { OnErr result (BringsPiece self.old (Bytes None eof bytes.now)) }
    {
        if self.is_long(bytes) {
            return Ok(self.fail_source(CallStage::KeptBack, LeftCause::Error(SERVERFAULT)));
        }
        let piece = Data::of(self.alloc, bytes)?;
        write_all(bytes, self.targets.as_mut_slice());
        self.piece = piece;
        self.ended = eof;
        self.read = CallStage::Done;
        Ok(self.go_on(CopyStep::Waiting))
    }

    /// More bytes than were asked for, or some past the end of the longest file.
    fn is_long(&self, bytes: &[u8]) -> bool
        ensures { result ≡ is_long self.now bytes.now }
    {
        if bytes.len() > PIECE_SIZE as usize {
            return true;
        }
        self.at + bytes.len() as u64 > MAX_FILE
    }

    /// The READ failed, and is kept until the next tick.
    fn fail_source(&mut self, kept: CallStage, cause: LeftCause) -> CopyStep
        ensures { record { copy = self.new; step = result } ≡ source_fails self.old kept cause }
    {
        self.read = kept;
        CopyStep::SourceFailed(cause)
    }

    /// What a timeout of the call of this number comes to: `Stranger` where none is outstanding. At `Waiting` the same
    /// record is to be sent again, unless its call is kept until the next tick.
    pub fn on_timeout(&mut self, xid: u32) -> CopyStep
        ensures { record { copy = self.new; step = result } ≡ on_timeout self.old xid }
    {
        if let Some(place) = outstanding(xid, self.targets.as_slice()) {
            let (target, step) = timed_out(self.targets[place]);
            self.targets[place] = target;
            return self.go_on(step);
        }
        if is_out(xid, self.read) {
            return self.time_out_read();
        }
        CopyStep::Stranger
    }

    /// What a timeout of the READ comes to: with the third one the source fails.
    fn time_out_read(&mut self) -> CopyStep
        ensures { record { copy = self.new; step = result } ≡ read_late self.old self.old.read }
    {
        match self.read {
            CallStage::Out { xid, timeouts } if timeouts >= MAX_TIMEOUTS - 1 => {
                self.fail_source(CallStage::KeptOut { xid }, LeftCause::Timeouts)
            }
            CallStage::Out { xid, timeouts } => {
                self.read = CallStage::Out {
                    xid,
                    timeouts: timeouts + 1,
                };
                CopyStep::Waiting
            }
            CallStage::KeptOut { .. } => CopyStep::Waiting,
            _ => CopyStep::Stranger,
        }
    }

    /// Time passes: a READ that was kept is sent again.
    pub fn tick(&mut self)
        ensures { self.new ≡ after_tick self.old }
    {
        self.read = stage_at_tick(self.read);
    }

    /// The targets that are left, with the mirrors that they replace, once each holds the source's bytes; also where none
    /// is left. `None` while the copy goes on.
    pub fn outcome(&self) -> Option<Targets>
        ensures { result ≡ outcome self.now }
    {
        if !self.has_outcome() {
            return None;
        }
        Some(swaps(self.targets.as_slice()))
    }

    /// No target is left, or each that is left holds all bytes up to the READ that said end.
    fn has_outcome(&self) -> bool
        ensures { result ≡ has_outcome self.now }
    {
        if are_given_up(self.targets.as_slice()) {
            return true;
        }
        self.ended && are_over(self.targets.as_slice())
    }

    /// A target took a step, or a piece was READ: the copy is done, or goes on.
    fn go_on(&mut self, step: CopyStep) -> CopyStep
        ensures { record { copy = self.new; step = result } ≡ copy_then self.old step }
    {
        let told = self.step_told(step);
        self.read_next();
        told
    }

    /// What is told of a step: one that lost no target may end the copy.
    fn step_told(&self, step: CopyStep) -> CopyStep
        ensures { result ≡ step_told self.now step }
    {
        match step {
            CopyStep::Waiting if self.has_outcome() => CopyStep::Done,
            other => other,
        }
    }

    /// The next piece is to be READ where every target that is left has answered the one in hand.
    fn read_next(&mut self)
        ensures { self.new ≡ goes_on self.old }
    {
        if !is_over(self.read) || self.ended || !are_over(self.targets.as_slice()) {
            return;
        }
        self.at += self.piece.bytes().len() as u64;
        self.piece = Data::from_vec(Vec::new(self.alloc));
        self.read = CallStage::Waits;
    }
}
