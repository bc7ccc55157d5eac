//! What holds of every log.

ghost use Rattle.std.specs.Prelude.{◌≡◌, ◌+◌, ℕ, List, [], ◌∷◌, ◌++◌, Some, Ok};
ghost use Rattle.ff_xdr.specs.Form.{Fits, spelling};
ghost use Rattle.cluster_model.specs.Server.{ServerState, restart_of};
ghost use Rattle.ds_log.specs.Bodies.{Logged, body_form, body_value, body_in};
ghost use Rattle.ds_log.specs.Durable.{durable, applied, applied_bytes, played};

/// What lasts of a server is what lasts of that, and the server starts as it; what a body makes of a server that lasts
/// lasts too. A body that has a spelling is read from it, and a log with one body more goes on from what it said.
pub fn log_law()
    ensures again { (s : ServerState) → durable (durable s) ≡ durable s }
    ensures starts { (s : ServerState) → restart_of (durable s) [] ≡ restart_of s [] }
    ensures lasts { (s new : ServerState) (body : Logged) → durable s ≡ s → applied s body ≡ Some new → durable new ≡ new }
    ensures reread { (body : Logged) → Fits body_form (body_value body) → body_in (spelling body_form (body_value body)) ≡ Some body }
    ensures plays { (s mid new : ServerState) (place : ℕ) (bodies : List (List ℕ)) (body : List ℕ) → played s place bodies ≡ Ok mid → applied_bytes mid body ≡ Some new → played s place (bodies ++ body ∷ []) ≡ Ok new }
{}
