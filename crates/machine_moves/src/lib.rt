//! How runs of the cluster's machine go on.
#![tactic(auto)]

ghost use Rattle.std.specs.Prelude.{List, ◌++◌};
ghost use Rattle.cluster_model.specs.declared.entry.Entry.{Entry};
ghost use Rattle.cluster_laws.specs.Machine.{Machine, Move, machine_after, moved};
ghost use Rattle.machine_moves.specs.MachineGoesOn.{MachineGoesOn};
ghost use Rattle.machine_moves.specs.MachineMoves.{KeepsPackets};

/// A move goes on from its machine, and what goes on from there goes on from before it. Whatever moves come, each packet
/// that was sent stays where it is.
pub fn machine_moves()
    ensures moves { (m : Machine) (move : Move) → MachineGoesOn m (moved m move).entries (moved m move).machine }
    ensures joins { (m n o : Machine) (a b : List Entry) → MachineGoesOn m a n → MachineGoesOn n b o → MachineGoesOn m (a ++ b) o }
    ensures packets { (m : Machine) (moves : List Move) → KeepsPackets m (machine_after m moves) }
{}
