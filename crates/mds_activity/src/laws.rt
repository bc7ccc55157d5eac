//! What holds of the calls of every file.

ghost use Rattle.std.specs.Prelude.{ℕ};
ghost use Rattle.file_rule.specs.MdsFiles.{MdsFile};
ghost use Rattle.file_rule.specs.FilePhases.{call_out};
ghost use Rattle.mds_activity.specs.FileCalls.{servers_waiting, GoesFirst};

/// The first server to which a call of a file waits is that of its next call, and a call goes out just where there is one.
pub fn first_calls()
    ensures { (f : MdsFile) (xid : ℕ) → GoesFirst (call_out f xid) (servers_waiting f) }
{}
