//! A layout, and the writes under it.

ghost use Rattle.std.specs.Prelude.{◌≡◌, ◌≤◌, ◌+◌, length};
ghost use Rattle.cluster_model.specs.declared.limits.TheConstants.{MAX_FILE};
ghost use Rattle.client_state.specs.ClientQueue.{ending};
ghost use Rattle.client_state.specs.QueueSteps.{TakesUnder};

use crate::stage::LayoutStage;
use crate::untold::Untold;
use cluster_model::Mirrors;
use mirror_writer::{WriteBytes, WriteStart, Writer};
use nfs4_types::Stateid;

/// A layout that was granted (RFC 8881, section 12.2).
#[derive(Debug, Drop)]
pub struct Layout {
    pub stateid: Stateid,
    pub mirrors: Mirrors,
    /// The writes under it.
    pub writer: Writer,
    /// Those of them that are not told yet, in the order in which they were taken.
    pub untold: Untold,
    /// For each mirror, in the layout's order, why it failed: a status of NFS.
    pub statuses: [Option<u32>; 4],
    /// How far its return is.
    pub stage: LayoutStage,
    /// A LAYOUTRETURN of it was ever sent.
    pub was_sent: bool,
}

impl Layout {
    /// It is to be given back: from now on no write is taken, and what was taken is committed.
    pub fn end(&mut self)
        ensures { self.new ≡ ending self.old }
    {
        match self.stage {
            LayoutStage::Writing => {
                self.writer.commit();
                self.stage = LayoutStage::Ending;
            }
            LayoutStage::Ending => {}
            LayoutStage::Deferred => {}
            LayoutStage::Returning => {}
        }
    }

    /// Takes a write that ends at 67,108,864 or before, unless a taken write has one of its places. It is to be told.
    /// After `NoMemory` nothing is said.
    pub fn take(&mut self, at: u64, bytes: &WriteBytes) -> WriteStart
        requires within { at + length bytes.now ≤ MAX_FILE }
        ensures { TakesUnder self.old at bytes.now result self.new }
    {
        let number = self.writer.count();
        let start = self.writer.write(at, bytes);
        match start {
            WriteStart::Taken => {}
            WriteStart::Overlap => return WriteStart::Overlap,
            WriteStart::NoMemory => return WriteStart::NoMemory,
        }
        match self.untold.push(number) {
            Ok(()) => WriteStart::Taken,
            Err(_) => WriteStart::NoMemory,
        }
    }
}
