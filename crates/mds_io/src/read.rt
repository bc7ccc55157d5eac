//! A read of a file at its live mirrors.

ghost use Rattle.std.specs.Prelude.{◌≡◌, ℕ, ◌<◌, length, OnSome};
ghost use Rattle.cluster_model.specs.DsCalls.{plain_ds_reply};
ghost use Rattle.cluster_model.specs.Fences.{is_out};
ghost use Rattle.mds_io.specs.Reads.{new_read, begun_again, in_turn, end_of, fails, after_timeout};
ghost use Rattle.mds_io.specs.Calls.{SendsRead, AnswersRead, WaitsAt};

use crate::read_end::{Failure, Failures, ReadEnd};
use call_stage::{is_out, waits};
use cluster_model::{
    CallStage, DsCall, DsReply, LeftCause, MAX_TIMEOUTS, Mirror, MirrorId, Mirrors, SERVERFAULT,
};
use ff_xdr::{Data, NoMemory};
use std::alloc::Global;
use std::marker::Model;

/// A READ that goes to the live mirrors of a file one after the other, until one gives the bytes (RFC 8881, section 18.22;
/// RFC 1813, section 3.3.6). At most one call is outstanding. Only an answer with bytes takes memory.
#[derive(Debug, Drop)]
pub struct MdsRead {
    at: u64,
    count: u32,
    live: Mirrors,
    failures: Failures,
    stage: CallStage,
}

impl Model for MdsRead {
    ghost use Rattle.mds_io.specs.Reads.{ReadState};

    ghost Value = { ReadState };

    ghost view = { λ r. record { at = r.at; count = r.count; live = r.live; failures = r.failures; stage = r.stage } };
}

impl MdsRead {
    /// A read of at most `count` bytes from the byte `at` on, at these mirrors in their order: a READ to the first one waits.
    pub fn start(live: Mirrors, at: u64, count: u32) -> MdsRead
        ensures { result ≡ new_read live at count }
    {
        MdsRead {
            at,
            count,
            live,
            failures: Failures::none(),
            stage: CallStage::Waits,
        }
    }

    /// The READ to the mirror that has its turn, which is outstanding from now on under this number; `None` where none
    /// waits.
    pub fn next_call(&mut self, xid: u32) -> Option<(MirrorId, DsCall<'static>)>
        ensures { SendsRead self.old xid result self.new }
    {
        if !waits(self.stage) {
            return None;
        }
        let mirror = self.in_turn()?;
        self.stage = CallStage::Out { xid, timeouts: 0 };
        let call = DsCall::Read {
            fileid: mirror.id.fileid,
            at: self.at,
            count: self.count,
        };
        Some((mirror.id, call))
    }

    /// The mirror to which `next_call` would send.
    pub fn waiting_mirror(&self) -> Option<MirrorId>
        ensures { (xid : ℕ) → WaitsAt self.now xid result }
    {
        if !waits(self.stage) {
            return None;
        }
        let mirror = self.in_turn()?;
        Some(mirror.id)
    }

    /// What the answer to the READ of this number comes to: the bytes end it, and anything else is a failure of the mirror,
    /// behind which the next one has its turn; where none is left, it has ended. `None` where it goes on, also where no READ
    /// of this number is outstanding. At `NoMemory` nothing has changed.
    pub fn on_reply(
        &mut self,
        alloc: Global,
        xid: u32,
        reply: &DsReply<'_>,
    ) -> Result<Option<ReadEnd>, NoMemory>
        ensures { AnswersRead self.old xid (plain_ds_reply reply.now) result self.new }
    {
        if !is_out(xid, self.stage) {
            return Ok(None);
        }
        match *reply {
            DsReply::Bytes { eof, bytes, .. } => {
                let bytes = Data::of(alloc, bytes)?;
                self.stage = CallStage::Done;
                Ok(Some(ReadEnd::Bytes { eof, bytes }))
            }
            DsReply::Failed { status, .. } => Ok(self.fail(xid, LeftCause::Error(status))),
            _ => Ok(self.fail(xid, LeftCause::Error(SERVERFAULT))),
        }
    }

    /// The READ of this number is outstanding.
    pub fn is_outstanding(&self, xid: u32) -> bool
        ensures { result ≡ is_out xid self.now.stage }
    {
        is_out(xid, self.stage)
    }

    /// What a timeout of the READ of this number comes to: where `next_call` has nothing and `failures` are as they were,
    /// the same record is to be sent again, twice; the third timeout is a failure of the mirror.
    pub fn on_timeout(&mut self, xid: u32) -> Option<ReadEnd>
        ensures { record { read = self.new; end = result } ≡ after_timeout self.old xid }
    {
        let CallStage::Out { xid: own, timeouts } = self.stage else {
            return None;
        };
        if own != xid {
            return None;
        }
        if timeouts >= MAX_TIMEOUTS - 1 {
            return self.fail(xid, LeftCause::Timeouts);
        }
        self.stage = CallStage::Out {
            xid,
            timeouts: timeouts + 1,
        };
        None
    }

    /// It begins again with these mirrors, of which none has failed: a swap has changed the live list.
    pub fn restart(&mut self, live: Mirrors)
        ensures { self.new ≡ begun_again self.old live }
    {
        self.live = live;
        self.failures = Failures::none();
        self.stage = CallStage::Waits;
    }

    /// The mirrors that did not give the bytes since it began, or began again, in order.
    pub fn failures(&self) -> &[Failure]
        ensures { result.now ≡ self.now.failures }
    {
        self.failures.as_slice()
    }

    /// The mirror that has its turn: the one behind those that failed.
    fn in_turn(&self) -> Option<Mirror>
        ensures turn { result ≡ in_turn self.now }
        ensures room { OnSome result (length self.now.failures < 4) }
    {
        let place = self.failures.as_slice().len();
        if place >= self.live.len() {
            return None;
        }
        self.live.get(place)
    }

    /// The READ that is out has failed at the mirror that has its turn.
    fn fail(&mut self, xid: u32, cause: LeftCause) -> Option<ReadEnd>
        ensures { record { read = self.new; end = result } ≡ fails self.old xid cause (in_turn self.old) }
    {
        let mirror = self.in_turn()?;
        self.failures.add(Failure {
            id: mirror.id,
            xid,
            cause,
        });
        self.stage = CallStage::Waits;
        self.end()
    }

    /// It has ended where no mirror has its turn.
    fn end(&self) -> Option<ReadEnd>
        ensures { result ≡ end_of self.now (in_turn self.now) }
    {
        if self.in_turn().is_some() {
            return None;
        }
        let failures = self.failures.copied();
        Some(ReadEnd::AllFailed { failures })
    }
}
