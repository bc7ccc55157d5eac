//! A server whose numbers have room stays so.

ghost use Rattle.std.specs.Prelude.{ℕ, List, Some, ◌≡◌, ◌<◌, ◌^◌, true};
ghost use Rattle.cluster_model.specs.declared.piece.Piece.{Piece};
ghost use Rattle.cluster_model.specs.Server.{ServerState, Caller, new_server, restart_of};
ghost use Rattle.cluster_model.specs.DsCalls.{DsCallValue, ds_step};
ghost use Rattle.ds_calls.specs.DsCallLaws.{IsSpeakable, DsMessage, HasRecord};
ghost use Rattle.same_server.specs.SameServer.{CanReply, DoesTheCall};
ghost use Rattle.proper_servers.specs.ProperServers.{IsProper, is_of_bytes};

use same_server::same_server;

/// What every data server of a cluster meets: each of its numbers has room in its field, each of its files has a name and
/// the mode 0640 (`IsProper`), and there are no more files than ticks were given. A new server meets it, and each call and each restart keeps it, a call of a user whatever its numbers
/// are. So each reply of such a server to a call of the cluster has a spelling, and the call's record does what the call
/// does (RFC 1813, section 3.3).
pub fn proper_servers()
    ensures replies { (s : ServerState) (m : DsMessage) → IsProper s → HasRecord m → CanReply s m }
    ensures same { (s : ServerState) (m : DsMessage) → IsProper s → HasRecord m → DoesTheCall s m }
    ensures steps { (s : ServerState) (caller : Caller) (call : DsCallValue) → IsProper s → IsSpeakable call → IsProper (ds_step s caller call).server }
    ensures users { (s : ServerState) (caller : Caller) (call : DsCallValue) → is_of_bytes call ≡ true → IsProper s → IsProper (ds_step s caller call).server }
    ensures starts { (number boot : ℕ) → number < 2 ^ 32 → boot < 2 ^ 32 → IsProper (new_server number boot) }
    ensures restarts { (s : ServerState) (pieces : List Piece) (new : ServerState) → IsProper s → restart_of s pieces ≡ Some new → IsProper new }
{
    same_server();
}
