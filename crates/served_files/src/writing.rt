//! The metadata server's own WRITE of a file, whose compound waits for it.

ghost use Rattle.std.specs.Prelude.{◌≡◌, ◌≤◌, ◌+◌, length, is_some, slice_get, OnOk, IfOk};
ghost use Rattle.cluster_model.specs.declared.limits.TheConstants.{MAX_FILE, PIECE_SIZE};
ghost use Rattle.cluster_model.specs.DsCalls.{plain_ds_reply};
ghost use Rattle.mirror_writer.specs.Writers.{after_timeout};
ghost use Rattle.mds_io.specs.OwnWrites.{after_own_reply, ended};
ghost use Rattle.mds_rule.specs.FileOps.{new_write};
ghost use Rattle.mds_rule.specs.Answers.{with_failed, cause_at, cause_there, failures_by_place, has_failed_everywhere, write_stepped};

use cluster_model::{Cred, DsReply, LeftCause, Mirror, MirrorId, Mirrors};
use compound_run::KeptRun;
use ff_xdr::NoMemory;
use mds_io::MdsWrite;
use mirror_writer::{WriteBytes, WriterStep};
use std::alloc::Global;
use std::marker::Model;

/// A WRITE, the compound that waits for it, and why mirrors failed it so far (RFC 8881, section 18.32).
#[derive(Drop)]
pub struct WaitingWrite {
    pub compound: KeptRun,
    pub at: u64,
    pub bytes: WriteBytes,
    pub writer: MdsWrite,
    pub failures: Vec<(MirrorId, LeftCause)>,
}

impl Model for WaitingWrite {
    ghost use Rattle.mds_rule.specs.MdsStates.{WaitingWrite};

    ghost Value = { WaitingWrite };

    ghost view = { λ w. record { compound = w.compound; at = w.at; bytes = w.bytes; writer = w.writer; failures = w.failures.items } };
}

/// A WRITE that has ended, and the compound that goes on.
#[derive(Drop)]
pub struct EndedWrite {
    pub compound: KeptRun,
    pub at: u64,
    pub bytes: WriteBytes,
    /// For each place in the live list, why its mirror failed it; none past its end.
    pub causes: [Option<LeftCause>; 4],
    /// Every live mirror failed it.
    pub has_failed: bool,
}

/// Why a mirror failed it, if it did.
fn cause_at(failures: &[(MirrorId, LeftCause)], mirror: &Mirror) -> Option<LeftCause>
    ensures { result ≡ cause_at failures.now mirror.now }
{
    for (id, cause) in failures {
        if *id == mirror.id {
            return Some(*cause);
        }
    }
    None
}

/// The same of the mirror at a place of the live list.
fn cause_there(failures: &[(MirrorId, LeftCause)], live: Mirrors, place: usize) -> Option<LeftCause>
    ensures { result ≡ cause_there failures.now (slice_get live place) }
{
    match live.get(place) {
        Some(mirror) => cause_at(failures, &mirror),
        None => None,
    }
}

/// Why each live mirror failed it, by its place.
pub fn causes_of(failures: &[(MirrorId, LeftCause)], live: Mirrors) -> [Option<LeftCause>; 4]
    ensures { result ≡ failures_by_place failures.now live }
{
    [
        cause_there(failures, live, 0),
        cause_there(failures, live, 1),
        cause_there(failures, live, 2),
        cause_there(failures, live, 3),
    ]
}

/// Every live mirror failed it.
pub fn has_failed_everywhere(failures: &[(MirrorId, LeftCause)], live: Mirrors) -> bool
    ensures { result ≡ has_failed_everywhere failures.now live }
{
    for place in 0..live.len() {
        let Some(mirror) = live.get(place) else {
            return true;
        };
        if cause_at(failures, &mirror).is_none() {
            return false;
        }
    }
    true
}

impl WaitingWrite {
    /// A WRITE of 1 to 65,536 bytes that ends at 67,108,864 or before goes to these mirrors, by this uid. Takes memory.
    pub fn start(
        alloc: Global,
        compound: KeptRun,
        live: Mirrors,
        cred: Cred,
        at: u64,
        bytes: &[u8],
    ) -> Result<WaitingWrite, NoMemory>
        requires some { 1 ≤ length bytes.now }
        requires few { length bytes.now ≤ PIECE_SIZE }
        requires within { at + length bytes.now ≤ MAX_FILE }
        ensures { IfOk result (λ w. w ≡ new_write compound live cred.0 at bytes.now) }
    {
        let bytes = WriteBytes::of(alloc, bytes)?;
        let writer = MdsWrite::start(alloc, live, cred, at, &bytes)?;
        Ok(WaitingWrite {
            compound,
            at,
            bytes,
            writer,
            failures: Vec::new(alloc),
        })
    }

    /// A mirror that failed it in this step is noted.
    fn note(&mut self, step: WriterStep) -> Result<(), NoMemory>
        ensures { OnOk result (self.new ≡ record self.old { failures = with_failed step self.old.failures }) }
    {
        if let WriterStep::Failed { id, cause } = step {
            self.failures.push((id, cause))?;
        }
        Ok(())
    }

    /// The answer to the call of this number; whether the WRITE is over. Takes memory.
    pub fn answer(&mut self, xid: u32, reply: &DsReply<'_>) -> Result<bool, NoMemory>
        ensures write { OnOk result (self.new ≡ write_stepped self.old (after_own_reply self.old.writer xid (plain_ds_reply reply.now))) }
        ensures over { IfOk result (λ over. over ≡ is_some (ended self.new.writer)) }
    {
        let step = self.writer.on_reply(xid, reply);
        self.note(step)?;
        Ok(self.writer.ended().is_some())
    }

    /// A timeout of the call of this number; whether the WRITE is over. Takes memory.
    pub fn time_out(&mut self, xid: u32) -> Result<bool, NoMemory>
        ensures write { OnOk result (self.new ≡ write_stepped self.old (after_timeout self.old.writer xid)) }
        ensures over { IfOk result (λ over. over ≡ is_some (ended self.new.writer)) }
    {
        let step = self.writer.on_timeout(xid);
        self.note(step)?;
        Ok(self.writer.ended().is_some())
    }
}
