//! What a log says behind a step.

ghost use Rattle.std.specs.Prelude.{◌≡◌, Some, None};
ghost use Rattle.cluster_model.specs.Server.{ServerState, Effect, server_after};
ghost use Rattle.ds_files.specs.Decisions.{CanDo};
ghost use Rattle.ds_log.specs.Bodies.{Logged};
ghost use Rattle.ds_log.specs.Durable.{durable, applied};
ghost use Rattle.ds_log.specs.Steady.{IsSteady};
ghost use Rattle.ds_changes.specs.Changes.{BodyOf};

/// What a body makes of what lasts of a server is what lasts of it behind the step. Where there is no body, what lasts
/// stays as it is. A steady server stays one.
pub fn changes_law()
    ensures logged { (s : ServerState) (effect : Effect) (body : Logged) → IsSteady s → CanDo s effect → BodyOf s effect (Some body) → applied (durable s) body ≡ Some (durable (server_after s effect)) }
    ensures nothing { (s : ServerState) (effect : Effect) → IsSteady s → CanDo s effect → BodyOf s effect None → durable (server_after s effect) ≡ durable s }
    ensures steady { (s : ServerState) (effect : Effect) → IsSteady s → CanDo s effect → IsSteady (server_after s effect) }
{}
