//! A writer over the mirrors of one file.

ghost use Rattle.cluster_model.specs.declared.limits.TheConstants.{MAX_FILE};
ghost use Rattle.std.specs.Prelude.{◌≡◌, ℕ, ⊤, ◌≤◌, ◌+◌, ◌<◌, length, false, IfOk, OnOk, OnErr, option_map, position, map, slice_get};
ghost use Rattle.std.specs.List.{list_all, list_any, find, All};
ghost use Rattle.std.specs.Borrow.{sem, follows_so};
ghost use mathlib.Core.Option.{none};
ghost use Rattle.mirror_writer.specs.contracts.writer.Writer.{the_row};
ghost use Rattle.cluster_model.specs.DsCalls.{plain_ds_call, plain_ds_reply};
ghost use Rattle.mirror_writer.specs.Writers.{new_writer, commit_wanted, all_committed, rest_committed, after_reply, after_timeout, reported_places, is_call, is_covered_at, overlaps_taken, with_write, call_for};
ghost use Rattle.mirror_writer.specs.Calls.{TakesWriteAs, SendsCall, SendsNamed, LendsCall, CarriesFewBytes, IsToSend, IsGone, LendsTaken, WaitsAt};
ghost use Rattle.mirror_writer.specs.MirrorSteps.{settled_as};

use crate::call::{MirrorOutcome, NextCall, TakenWrite};
use crate::extents::Extents;
use crate::mirror::MirrorWrites;
use crate::mirrors::{
    all_committed, answer_at, covers_at, failed_places, next_of, open_all, open_committed,
    outstanding, queue_all, reserve_all, send_at, some_committed, some_out, time_out_at, waiting,
};
use crate::step::{WriteStart, WriterStep};
use crate::write_bytes::WriteBytes;
use cluster_model::{Cred, DsCall, DsReply, MirrorId, Mirrors, Reported};
use ff_xdr::NoMemory;
use std::alloc::Global;
use std::marker::Model;

/// The writes of one layout, to all mirrors of its file (RFC 8435, sections 5 and 8).
#[derive(Debug, Drop)]
pub struct Writer {
    alloc: Global,
    cred: Cred,
    pub(crate) taken: Vec<TakenWrite>,
    // the places of the taken writes
    pub(crate) places: Extents,
    pub(crate) mirrors: Vec<MirrorWrites>,
    wants_commit: bool,
    is_fenced: bool,
}

impl Model for Writer {
    ghost use Rattle.mirror_writer.specs.Writers.{WriterValue};
    ghost use Rattle.mirror_writer.specs.Rooms.{mirrors_shown};
    ghost use Rattle.mirror_writer.specs.Places.{ArePlacesOf};

    ghost Value = { WriterValue };

    ghost view = { λ w. record { cred = w.cred.0; taken = w.taken.items; mirrors = mirrors_shown w.mirrors.items; wants_commit = w.wants_commit; is_fenced = w.is_fenced } };

    ghost invariant = { λ w. ArePlacesOf w.taken.items w.places };
}

impl Writer {
    /// A writer that has taken nothing; its calls carry the layout's uid.
    pub fn open(alloc: Global, mirrors: Mirrors, cred: Cred) -> Result<Writer, NoMemory>
        ensures { IfOk result (λ w. w ≡ new_writer mirrors cred.0) }
    {
        Ok(Writer {
            alloc,
            cred,
            taken: Vec::new(alloc),
            places: Extents::new(alloc),
            mirrors: open_all(alloc, mirrors)?,
            wants_commit: false,
            is_fenced: false,
        })
    }

    /// The uid that the calls carry.
    pub fn cred(&self) -> Cred
        ensures { result.0 ≡ self.now.cred }
    {
        self.cred
    }

    /// Takes a write that ends at 67,108,864 or before, unless one of its places is a taken write's. It waits at every
    /// mirror then. Its bytes are shared, and not copied.
    pub fn write(&mut self, at: u64, bytes: &WriteBytes) -> WriteStart
        requires within { at + length bytes.now ≤ MAX_FILE }
        ensures { TakesWriteAs self.old at bytes.now result self.new }
    {
        if self.places.overlaps(at, bytes.bytes().len() as u64) {
            return WriteStart::Overlap;
        }
        match self.take(at, bytes) {
            Ok(()) => WriteStart::Taken,
            Err(NoMemory) => WriteStart::NoMemory,
        }
    }

    /// Takes a write that has no place in common with the taken ones. At an error nothing has changed.
    fn take(&mut self, at: u64, bytes: &WriteBytes) -> Result<(), NoMemory>
        requires within { at + length bytes.now ≤ MAX_FILE }
        requires apart { overlaps_taken self.old at (length bytes.now) ≡ false }
        ensures ok { OnOk result (self.new ≡ with_write self.old at bytes.now) }
        ensures err { OnErr result (self.new ≡ self.old) }
    {
        let write = TakenWrite {
            at,
            bytes: bytes.share(self.alloc)?,
        };
        reserve_all(&mut self.mirrors)?;
        self.taken.reserve(1)?;
        self.places.insert(at, bytes.bytes().len() as u64)?;
        let n = self.taken.len();
        queue_all(n, &mut self.mirrors);
        self.taken.push_reserved(write);
        Ok(())
    }

    /// From now on COMMIT goes to each mirror whose WRITEs are answered. This ends with the answer by which each mirror
    /// that has not failed is committed, and does not begin where every mirror is; one that failed is not.
    pub fn commit(&mut self)
        ensures { self.new ≡ commit_wanted self.old }
    {
        self.wants_commit = !all_committed(&self.mirrors);
    }

    /// The call to the first mirror to which one waits, which is outstanding from now on under this number: a WRITE,
    /// UNSTABLE, of the bytes as they were taken, or a COMMIT of the whole file (RFC 1813, sections 3.3.7 and 3.3.21).
    /// `None` where none waits. No call of this number is outstanding before. Takes no memory.
    pub fn next_call(&mut self, xid: u32) -> Option<(MirrorId, DsCall<'_>)>
        ensures few { CarriesFewBytes result }
        ensures* sends { sem 𝓛 (follows_so the_row the_row self.entry.ghost_name none (λ _ _. ⊤) (λ new. SendsCall self.old xid result new)) }
    {
        let named = self.send_next(xid);
        self.lend(named)
    }

    /// The mirror to which `next_call` would send.
    pub fn waiting_mirror(&self) -> Option<MirrorId>
        ensures { (xid : ℕ) → WaitsAt self.now xid result }
    {
        match self.to_send() {
            Some((_, id, _)) => Some(id),
            None => None,
        }
    }

    /// What goes to the first mirror to which a call waits. It is outstanding from now on.
    fn send_next(&mut self, xid: u32) -> Option<(MirrorId, NextCall)>
        ensures { SendsNamed self.old xid result self.new }
    {
        let (place, id, next) = self.to_send()?;
        send_at(xid, next, place, &mut self.mirrors);
        Some((id, next))
    }

    /// The place of the first mirror to which a call waits, its name, and the call.
    fn to_send(&self) -> Option<(usize, MirrorId, NextCall)>
        ensures { IsToSend self.now result }
    {
        if self.is_fenced {
            return None;
        }
        let Some(place) = waiting(self.wants_commit, &self.mirrors) else {
            return None;
        };
        let Some((id, next)) = next_of(self.wants_commit, place, &self.mirrors) else {
            return None;
        };
        if self.is_gone(next) {
            return None;
        }
        Some((place, id, next))
    }

    /// It is the WRITE of no taken write.
    fn is_gone(&self, next: NextCall) -> bool
        ensures { IsGone self.now next result }
    {
        match next {
            NextCall::SendsWrite(n) => n >= self.taken.len(),
            NextCall::SendsCommit => false,
        }
    }

    /// The call that goes to a mirror, if one does.
    fn lend(&self, named: Option<(MirrorId, NextCall)>) -> Option<(MirrorId, DsCall<'_>)>
        ensures few { CarriesFewBytes result }
        ensures lends { LendsCall self.now named result }
    {
        let (id, next) = named?;
        let NextCall::SendsWrite(n) = next else {
            return Some((id, DsCall::Commit { fileid: id.fileid }));
        };
        let write = self.taken.get(n)?;
        let call = DsCall::Write {
            fileid: id.fileid,
            at: write.at,
            synced: false,
            bytes: write.bytes.bytes(),
        };
        Some((id, call))
    }

    /// What the answer to the call of this number comes to. Takes no memory.
    pub fn on_reply(&mut self, xid: u32, reply: &DsReply<'_>) -> WriterStep
        ensures { record { writer = self.new; step = result } ≡ after_reply self.old xid (plain_ds_reply reply.now) }
    {
        let Some(place) = outstanding(xid, &self.mirrors) else {
            return WriterStep::Stranger;
        };
        let (id, outcome) = answer_at(reply, place, &mut self.mirrors);
        self.settle(id, outcome)
    }

    /// A call of this number is outstanding.
    pub fn is_outstanding(&self, xid: u32) -> bool
        ensures { result ≡ list_any (λ m. is_call xid m.call) self.now.mirrors }
    {
        some_out(xid, &self.mirrors)
    }

    /// What a timeout of the call of this number comes to: at `Waiting` the same record is to be sent again.
    pub fn on_timeout(&mut self, xid: u32) -> WriterStep
        ensures { record { writer = self.new; step = result } ≡ after_timeout self.old xid }
    {
        let Some(place) = outstanding(xid, &self.mirrors) else {
            return WriterStep::Stranger;
        };
        let (id, outcome) = time_out_at(place, &mut self.mirrors);
        self.settle(id, outcome)
    }

    /// What it comes to for the writer that something came to pass at a mirror.
    fn settle(&mut self, id: MirrorId, outcome: MirrorOutcome) -> WriterStep
        ensures { record { writer = self.new; step = result } ≡ settled_as self.old id outcome }
    {
        match outcome {
            MirrorOutcome::Stranger => WriterStep::Stranger,
            MirrorOutcome::Waiting => WriterStep::Waiting,
            MirrorOutcome::Failed(cause) => WriterStep::Failed { id, cause },
            MirrorOutcome::Fenced(status) => {
                self.is_fenced = true;
                WriterStep::Fenced { id, status }
            }
            MirrorOutcome::CommitOk => {
                if open_committed(&self.mirrors) {
                    self.wants_commit = false;
                    return WriterStep::Committed;
                }
                WriterStep::Waiting
            }
        }
    }

    /// For each place in the layout, whether its mirror has failed.
    pub fn report(&self) -> Reported
        ensures { result.places ≡ reported_places self.now }
    {
        Reported {
            places: failed_places(&self.mirrors),
        }
    }

    /// Each taken write is covered at each mirror.
    pub fn all_committed(&self) -> bool
        ensures { result ≡ all_committed self.now }
    {
        all_committed(&self.mirrors)
    }

    /// Each taken write is covered at each mirror that has not failed, and there is one.
    pub fn rest_committed(&self) -> bool
        ensures { result ≡ rest_committed self.now }
    {
        open_committed(&self.mirrors) && some_committed(&self.mirrors)
    }

    /// The taken write of this number, from 0: its place and its bytes.
    pub fn taken(&self, n: u32) -> Option<(u64, &[u8])>
        ensures { LendsTaken (slice_get self.now.taken n) (option_map (λ w. (w.0, w.1.now)) result) }
    {
        let (at, bytes) = self.write_numbered(n as usize)?;
        Some((at, bytes.bytes()))
    }

    /// The taken write of this number is covered at this mirror.
    pub fn covered(&self, n: u32, id: MirrorId) -> bool
        ensures { result ≡ is_covered_at self.now n id }
    {
        covers_at(n as usize, id, &self.mirrors)
    }
}
