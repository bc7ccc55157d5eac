//! What holds of a data server, whatever is done to it by those who may. Each law speaks of the definitions that
//! the rule of NFSv3 cites.

ghost use Rattle.std.specs.Prelude.{◌≡◌, ℕ, List, [], Some};
ghost use Rattle.cluster_model.specs.declared.piece.Piece.{Piece};
ghost use Rattle.cluster_model.specs.File.{StoredFile};
ghost use Rattle.cluster_model.specs.Server.{ServerState, new_server, Caller, Effect, server_after, entries_of, restart_of};
ghost use Rattle.cluster_model.specs.DsCalls.{DsCallValue, ds_plan, ds_step};
ghost use Rattle.cluster_model.specs.GuardLaws.{IsInOrder, CallLaws, RestartLaws, IsTold};
ghost use Rattle.cluster_model.specs.ServerLaws.{IsPermitted, IsSafe, IsTimed, AreClocked, TellsOld, TellsNew, IsRestarted, Turn, HasRisingTicks, IsToldByJournal};

/// What is done to a server by one who may: no stranger changes a file; it takes one tick or none, and no file
/// shows a ctime above the last one; the entries say what came of each file's bytes and owner.
pub fn server_effects()
    ensures safe { (s : ServerState) (caller : Caller) (effect : Effect) → IsPermitted s caller effect → (index : ℕ) (f : StoredFile) → IsSafe s caller index f (server_after s effect) }
    ensures timed { (s : ServerState) (caller : Caller) (effect : Effect) → IsPermitted s caller effect → IsTimed s (server_after s effect) }
    ensures clocked { (s : ServerState) (caller : Caller) (effect : Effect) → IsPermitted s caller effect → AreClocked s → AreClocked (server_after s effect) }
    ensures old { (s : ServerState) (caller : Caller) (effect : Effect) → IsPermitted s caller effect → TellsOld s (server_after s effect) (entries_of s caller.uid effect) }
    ensures new { (s : ServerState) (caller : Caller) (effect : Effect) → IsPermitted s caller effect → TellsNew s (server_after s effect) (entries_of s caller.uid effect) }
    ensures permitted { (s : ServerState) (caller : Caller) (call : DsCallValue) → IsPermitted s caller (ds_plan s caller call).effect }
{}

/// A restart is in the next boot, and its entry says what came of each file.
pub fn server_restarts()
    ensures { (s : ServerState) (pieces : List Piece) (new : ServerState) → restart_of s pieces ≡ Some new → IsRestarted s pieces new }
{}

/// Over every run of calls and restarts: each tick is after all that were given before, and from a new server on
/// the journal tells the bytes and the owner of each file.
pub fn server_runs()
    ensures ticks { (s : ServerState) (turns : List Turn) → HasRisingTicks s turns }
    ensures told { (number boot : ℕ) (turns : List Turn) → IsToldByJournal (new_server number boot) turns }
{}

/// What carries the fence law at one server. A call leaves what was asked of it before shut out, so that no owner
/// falls; an owner comes from a SETATTR of the file or from the CREATE that made it; what a reply shows is so behind
/// the call; and an entry of a write is under the caller's user, which is 0 or the file's owner. A restart loses none
/// of this, and a new server has it.
pub fn server_guards()
    ensures calls { (s : ServerState) (caller : Caller) (call : DsCallValue) → IsInOrder s → CallLaws s caller call (ds_step s caller call).server (ds_step s caller call).reply (ds_step s caller call).entries }
    ensures restarts { (s : ServerState) (pieces : List Piece) (new : ServerState) → restart_of s pieces ≡ Some new → IsInOrder s → RestartLaws s pieces new }
    ensures new { (number boot : ℕ) → IsInOrder (new_server number boot) × IsTold (new_server number boot) [] }
{}
