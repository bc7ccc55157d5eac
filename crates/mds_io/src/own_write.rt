//! A write of the metadata server itself.

ghost use Rattle.std.specs.Prelude.{◌≡◌, ℕ, ⊤, ◌≤◌, ◌+◌, length, IfOk, option_map};
ghost use Rattle.std.specs.List.{list_any};
ghost use Rattle.std.specs.Borrow.{sem, follows_so};
ghost use mathlib.Core.Option.{none};
ghost use Rattle.cluster_model.specs.declared.limits.TheConstants.{MAX_FILE};
ghost use Rattle.cluster_model.specs.DsCalls.{plain_ds_reply};
ghost use Rattle.mirror_writer.specs.Calls.{SendsCall, CarriesFewBytes, WaitsAt};
ghost use Rattle.mirror_writer.specs.Writers.{is_call, after_timeout, open_committed};
ghost use Rattle.mds_io.specs.contracts.own_write.MdsWrite.{the_row};
ghost use Rattle.mds_io.specs.OwnWrites.{own_write, after_own_reply, step_by, ended};

use cluster_model::{Cred, DsCall, DsReply, LeftCause, MirrorId, Mirrors, Reported, SERVERFAULT};
use ff_xdr::NoMemory;
use mirror_writer::{WriteBytes, WriteStart, Writer, WriterStep};
use std::alloc::Global;
use std::marker::Model;

/// One write to all live mirrors of a file, which is committed at each that does not fail (RFC 8881, section 18.32;
/// RFC 1813, sections 3.3.7 and 3.3.21). Only its start takes memory.
#[derive(Debug, Drop)]
pub struct MdsWrite {
    writer: Writer,
}

impl Model for MdsWrite {
    ghost use Rattle.mirror_writer.specs.Writers.{WriterValue};

    ghost Value = { WriterValue };

    ghost view = { λ w. w.writer };
}

impl MdsWrite {
    /// The write of bytes that end at 67,108,864 or before: a WRITE to each mirror waits. Its calls carry the uid `cred`. The
    /// bytes are shared, and not copied.
    pub fn start(
        alloc: Global,
        live: Mirrors,
        cred: Cred,
        at: u64,
        bytes: &WriteBytes,
    ) -> Result<MdsWrite, NoMemory>
        requires within { at + length bytes.now ≤ MAX_FILE }
        ensures { IfOk result (λ w. w ≡ own_write live cred.0 at bytes.now) }
    {
        let mut writer = Writer::open(alloc, live, cred)?;
        match writer.write(at, bytes) {
            WriteStart::Taken => {
                writer.commit();
                Ok(MdsWrite { writer })
            }
            WriteStart::NoMemory => Err(NoMemory),
            // a new writer has taken nothing that could overlap
            WriteStart::Overlap => unreachable!(),
        }
    }

    /// The call to the first mirror to which one waits, which is outstanding from now on under this number: the WRITE,
    /// UNSTABLE, or a COMMIT of the whole file. `None` where none waits. No call of this number is outstanding before. Takes
    /// no memory.
    pub fn next_call(&mut self, xid: u32) -> Option<(MirrorId, DsCall<'_>)>
        ensures few { CarriesFewBytes result }
        ensures* sends { sem 𝓛 (follows_so the_row the_row self.entry.ghost_name none (λ _ _. ⊤) (λ new. SendsCall self.old xid result new)) }
    {
        self.writer.next_call(xid)
    }

    /// The mirror to which `next_call` would send.
    pub fn waiting_mirror(&self) -> Option<MirrorId>
        ensures { (xid : ℕ) → WaitsAt self.now xid result }
    {
        self.writer.waiting_mirror()
    }

    /// What the answer to the call of this number comes to. Any status but OK is a failure of the mirror, and no status says
    /// that a layout is no more, so `Fenced` never comes. Takes no memory.
    pub fn on_reply(&mut self, xid: u32, reply: &DsReply<'_>) -> WriterStep
        ensures { record { writer = self.new; step = result } ≡ after_own_reply self.old xid (plain_ds_reply reply.now) }
    {
        let DsReply::Failed { status, shown } = *reply else {
            return self.writer.on_reply(xid, reply);
        };
        let plain = DsReply::Failed {
            status: SERVERFAULT,
            shown,
        };
        told_by(status, self.writer.on_reply(xid, &plain))
    }

    /// A call of this number is outstanding.
    pub fn is_outstanding(&self, xid: u32) -> bool
        ensures { result ≡ list_any (λ m. is_call xid m.call) self.now.mirrors }
    {
        self.writer.is_outstanding(xid)
    }

    /// What a timeout of the call of this number comes to: at `Waiting` the same record is to be sent again.
    pub fn on_timeout(&mut self, xid: u32) -> WriterStep
        ensures { record { writer = self.new; step = result } ≡ after_timeout self.old xid }
    {
        self.writer.on_timeout(xid)
    }

    /// `None` while a mirror has neither failed nor covered the write; then for each place of the live list, whether its
    /// mirror has failed.
    pub fn ended(&self) -> Option<Reported>
        ensures { option_map (λ r. r.places) result ≡ ended self.now }
    {
        if self.is_over() {
            return Some(self.writer.report());
        }
        None
    }

    /// Each mirror has failed or covered the write.
    fn is_over(&self) -> bool
        ensures { result ≡ open_committed self.now.mirrors }
    {
        if self.writer.rest_committed() {
            return true;
        }
        self.writer.has_no_mirror()
    }

    /// The uid that the calls carry.
    pub fn cred(&self) -> Cred
        ensures { result.0 ≡ self.now.cred }
    {
        self.writer.cred()
    }
}

/// The step, with this status as that of a mirror that has failed.
fn told_by(status: u32, step: WriterStep) -> WriterStep
    ensures { result ≡ step_by status step }
{
    match step {
        WriterStep::Failed { id, .. } => {
            let cause = LeftCause::Error(status);
            WriterStep::Failed { id, cause }
        }
        other => other,
    }
}
