//! Timeouts of calls.

ghost use Rattle.std.specs.Prelude.{◌≡◌, OnOk};
ghost use Rattle.mds_rule.specs.Answers.{timed_out_for};
ghost use Rattle.compound_run.specs.CompoundRuns.{HasMadeStep};

use crate::reads::resume_read;
use crate::writes::resume_write;
use cluster_model::Outbox;
use ff_xdr::NoMemory;
use mds_file::FileInput;
use mds_rule::Waiter;
use mds_state::{State, end_recall, take_input};

/// The call of this number, for which `caller` waits, timed out; it is `now`, in seconds. Takes memory.
pub fn time_out(
    state: &mut State,
    xid: u32,
    caller: Waiter,
    now: u64,
    out: &mut Outbox,
) -> Result<(), NoMemory>
    ensures { OnOk result (HasMadeStep (timed_out_for now state.old xid caller) out.old state.new out.new) }
{
    match caller {
        Waiter::ForFile(file) => take_input(state, file, FileInput::TimesOut(xid), out),
        Waiter::ForRead(file) => {
            let ended = state.files.time_out_read(file, xid, &mut out.entries)?;
            resume_read(state, file, ended, now, out)
        }
        Waiter::ForWrite(file) => {
            let ended = state.files.time_out_write(file, xid)?;
            resume_write(state, file, ended, now, out)
        }
        Waiter::ForRecall => {
            let outcome = state.recalls.on_timeout(xid);
            end_recall(state, outcome, out)
        }
    }
}
