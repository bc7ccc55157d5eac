//! What a data server keeps, whatever it is asked.

ghost use Rattle.std.specs.Prelude.{◌≡◌, ℕ, List, Some};
ghost use Rattle.rpc_record.specs.Rpc.{Credential};
ghost use Rattle.nfs3_wire.specs.Calls.{Nfs3Call};
ghost use Rattle.cluster_model.specs.declared.piece.Piece.{Piece};
ghost use Rattle.cluster_model.specs.File.{StoredFile};
ghost use Rattle.cluster_model.specs.Server.{ServerState, new_server, restart_of};
ghost use Rattle.cluster_model.specs.ServerLaws.{IsPermitted, IsSafe, IsTimed, AreClocked, TellsOld, TellsNew, IsRestarted};
ghost use Rattle.ds_procedures.specs.Objects.{caller_of};
ghost use Rattle.ds_procedures.specs.Steps.{plan_of, step_of};
ghost use Rattle.ds_files.specs.Laws.{IsRefusedReply, IsQuery, HasNoEffect, IsAsked, Happening, IsTimedRun, IsToldRun};

/// A caller that is neither uid 0 nor the owner of a file changes nothing of it.
pub fn strangers()
    ensures { (s : ServerState) (call : Nfs3Call) (cred : Credential) (index : ℕ) (f : StoredFile) → IsSafe s (caller_of cred) index f (step_of s call cred).server }
{}

/// A call that is refused changes nothing and is not entered in the journal, nor is one that only asks.
pub fn refusals()
    ensures refused { (s : ServerState) (call : Nfs3Call) (cred : Credential) → IsRefusedReply (step_of s call cred).reply → HasNoEffect s (step_of s call cred) }
    ensures queries { (s : ServerState) (call : Nfs3Call) (cred : Credential) → IsQuery call → HasNoEffect s (step_of s call cred) }
{}

/// A call does nothing, or one thing to one file, or it makes a file; who calls may do so, and it is what the call
/// asks for.
pub fn effects()
    ensures permitted { (s : ServerState) (call : Nfs3Call) (cred : Credential) → IsPermitted s (caller_of cred) (plan_of s call (caller_of cred)).effect }
    ensures asked { (s : ServerState) (call : Nfs3Call) (cred : Credential) → IsAsked s call (plan_of s call (caller_of cred)).effect }
{}

/// A call takes one tick or none, and never past the last of a boot. The server's number and its boot
/// stay. No file's ctime passes the last tick, nor does a stable one pass the one that is shown. Over every run of
/// calls and restarts each tick is after all that were given before.
pub fn ticks()
    ensures one { (s : ServerState) (call : Nfs3Call) (cred : Credential) → IsTimed s (step_of s call cred).server }
    ensures clocked { (s : ServerState) (call : Nfs3Call) (cred : Credential) → AreClocked s → AreClocked (step_of s call cred).server }
    ensures rising { (s : ServerState) (run : List Happening) → IsTimedRun s run }
{}

/// The entries of a step say what came of the bytes and of the owner of each file, and they say
/// nothing of a file that is not changed. From a new server on the journal of a run tells each file.
pub fn entries()
    ensures old { (s : ServerState) (call : Nfs3Call) (cred : Credential) → TellsOld s (step_of s call cred).server (step_of s call cred).entries }
    ensures new { (s : ServerState) (call : Nfs3Call) (cred : Credential) → TellsNew s (step_of s call cred).server (step_of s call cred).entries }
    ensures told { (number boot : ℕ) (run : List Happening) → IsToldRun (new_server number boot) run }
{}

/// A restart begins the next boot, behind all ticks of those before. Each file keeps its owner, its
/// bytes are what the entry makes of them, and no ctime passes the last tick.
pub fn restarts()
    ensures { (s : ServerState) (pieces : List Piece) (new : ServerState) → restart_of s pieces ≡ Some new → IsRestarted s pieces new }
{}
