//! What holds of every history of a server.

ghost use Rattle.std.specs.Prelude.{ℕ, List};
ghost use Rattle.std.specs.List.{All};
ghost use Rattle.record_server.specs.Network.{Waiting, Made};
ghost use Rattle.record_server.specs.Server.{ServingState};
ghost use Rattle.record_server.specs.History.{AllStand, ConnectHappens, Event, FewOpen, FlushHappens, HasHappened, NextHappens, SendHappens, WaitHappens};
ghost use Rattle.record_server.specs.Fairness.{IsFair, IsInRound};

/// In every history of a server, whatever its network and its streams do: on each connection, accepted or
/// made, the records that were handed out are those of the bytes that came on it, and the bytes that went on
/// it are the records of the messages that were put, up to those that are still to go (RFC 5531, section
/// 11). No more than 544 are open.
pub fn server_law()
    ensures stand { (waiting : Waiting) (made : Made) (reported : List ℕ) (moment faults : ℕ) (events : List Event) (new : ServingState) → AllStand waiting made reported moment faults events new }
    ensures few { (waiting : Waiting) (made : Made) (reported : List ℕ) (moment faults : ℕ) (events : List Event) (new : ServingState) → FewOpen waiting made reported moment faults events new }
{}

/// What the calls of `RecordServer` do are histories: steps, and behind them the record that is handed out;
/// or a message, where its connection is open.
pub fn calls_law()
    ensures next { NextHappens }
    ensures wait { WaitHappens }
    ensures send { SendHappens }
    ensures connect { ConnectHappens }
    ensures flush { FlushHappens }
{}

/// In each round the connections are visited in order, each once, and at most eight records are handed out
/// of each: so before a connection has its turn again, no more than that of every other.
pub fn fair_law()
    ensures { (events : List Event) (old new : ServingState) → All IsInRound events → HasHappened events old new → IsFair events old new }
{}
