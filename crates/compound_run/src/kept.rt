//! A compound that waits.

ghost use Rattle.std.specs.Prelude.{◌≡◌, IfOk};
ghost use Rattle.compound_run.specs.CompoundRuns.{run_of, HasRoomForResults};

use crate::run::{Progress, Run};
use compound_reply::Results;
use ff_xdr::NoMemory;
use nfs4_compound::KeptOps;
use std::alloc::Global;
use std::marker::Model;
use std::mem;

/// The text of a compound that waits: its tag, and the operations that are still to come.
#[derive(Drop)]
pub struct KeptText {
    tag: String,
    ops: KeptOps,
}

impl Model for KeptText {
    ghost use Rattle.std.specs.Prelude.{◌≤◌, length, string_bytes};
    ghost use Rattle.compound_run.specs.CompoundRuns.{TextValue};

    ghost Value = { TextValue };

    ghost view = { λ t. record { tag = string_bytes t.tag; ops = t.ops } };

    ghost invariant = { λ t. length (string_bytes t.tag) ≤ 1024 };
}

impl KeptText {
    /// The compound goes on from where it was.
    pub fn resume(&self, so_far: Progress) -> Run<'_>
        ensures { result ≡ run_of self.now.tag self.now.ops so_far }
    {
        Run {
            tag: self.tag.as_str(),
            ops: self.ops.ops(),
            so_far,
        }
    }
}

/// A compound that waits.
#[derive(Drop)]
pub struct KeptRun {
    text: KeptText,
    so_far: Progress,
}

impl Model for KeptRun {
    ghost use Rattle.mds_rule.specs.MdsStates.{CompoundRun};
    ghost use Rattle.compound_run.specs.CompoundRuns.{run_of, HasRoomForResults};

    ghost Value = { CompoundRun };

    ghost view = { λ k. run_of k.text.tag k.text.ops k.so_far };

    ghost invariant = { λ k. HasRoomForResults (run_of k.text.tag k.text.ops k.so_far) };
}

impl KeptRun {
    /// Its text and how far it is, from which it goes on by `KeptText::resume`.
    pub fn open(self) -> (KeptText, Progress)
        ensures parts { run_of result.0.tag result.0.ops result.1 ≡ self }
        ensures room { HasRoomForResults self }
    {
        let KeptRun { text, so_far } = self;
        (text, so_far)
    }
}

impl<'a> Run<'a> {
    /// The compound as it is kept while it waits. Its results are not in the run behind it. Takes memory.
    pub fn keep(&mut self, alloc: Global) -> Result<KeptRun, NoMemory>
        requires { HasRoomForResults self.old }
        ensures { IfOk result (λ kept. kept ≡ self.old) }
    {
        let tag = String::from_str(alloc, self.tag)?;
        let ops = self.ops.keep(alloc)?;
        let results = mem::replace(&mut self.so_far.results, Results::new(alloc));
        Ok(KeptRun {
            text: KeptText { tag, ops },
            so_far: Progress {
                node: self.so_far.node,
                xid: self.so_far.xid,
                results,
                slot: self.so_far.slot,
                is_kept: self.so_far.is_kept,
                current: self.so_far.current,
            },
        })
    }
}
