//! A run of a script to its end.

ghost use Rattle.std.specs.Prelude.{◌≡◌};
ghost use Rattle.line_runs.specs.Runs.{Runs, read_faults, write_faults};
ghost use Rattle.ff_replay.specs.Script.{EndsInRange, script_budget, script_meaning};
ghost use Rattle.ff_replay.specs.Player.{HasPrinted};

use crate::player::Player;
use journal_print::Mode;
use line_runs::{RunEnd, run_lines};
use rpc_record::{Sink, Source};
use std::alloc::Global;

/// Runs a script from `source`, line by line, and writes its trace to `sink`, whole or brief; for
/// `Mode::Count` nothing but, once lines have ended the run, how many entries of each kind there are. Where
/// the source failed, that is the trace of the lines that ended in what it gave, and no counts; where the
/// sink failed or memory was wanted, a beginning of it.
pub fn replay<S: Source, K: Sink>(alloc: Global, mode: Mode, source: &mut S, sink: &mut K) -> RunEnd
    ensures told { Runs script_budget (script_meaning mode) (S.left source.old) (K.held sink.old) result (S.left source.new) (K.held sink.new) }
    ensures range { EndsInRange (S.left source.old) result }
    ensures printed { HasPrinted mode (K.held sink.old) (K.held sink.new) }
    ensures reads { S.faults source.new ≡ read_faults result (S.faults source.old) }
    ensures writes { K.faults sink.new ≡ write_faults result (K.faults sink.old) }
{
    let mut player = Player::new(alloc, mode);
    let end = run_lines(alloc, &mut player, source, sink);
    // its entries say that their numbers are in range
    player.journal();
    end
}
