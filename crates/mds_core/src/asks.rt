//! What the cluster's administrator asks of a metadata server.

ghost use Rattle.std.specs.Prelude.{◌≡◌, OnOk};
ghost use Rattle.mds_rule.specs.Events.{takes_recall, takes_resilver};
ghost use Rattle.compound_run.specs.CompoundRuns.{HasMadeStep};

use cluster_model::{FileId, Outbox};
use ff_xdr::NoMemory;
use mds_file::FileInput;
use mds_sends::call_due;
use mds_state::{State, ask_back, take_input};

/// The layout that a client has of a file is asked back; it is `now`, in seconds. Takes memory.
pub fn recall(state: &mut State, file: FileId, now: u64, out: &mut Outbox) -> Result<(), NoMemory>
    ensures { OnOk result (HasMadeStep (takes_recall now state.old file) out.old state.new out.new) }
{
    ask_back(state, file, now, out)?;
    call_due(state, out)
}

/// A file that has fewer mirrors than it is to have gets further ones. Takes memory.
pub fn resilver(state: &mut State, file: FileId, out: &mut Outbox) -> Result<(), NoMemory>
    ensures { OnOk result (HasMadeStep (takes_resilver state.old file) out.old state.new out.new) }
{
    take_input(state, file, FileInput::Resilver, out)?;
    call_due(state, out)
}
