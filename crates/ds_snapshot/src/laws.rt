//! What a snapshot says.

ghost use Rattle.std.specs.Prelude.{◌≡◌, ◌<◌, Some};
ghost use Rattle.cluster_model.specs.Server.{ServerState};
ghost use Rattle.ds_log.specs.Durable.{unbooted, durable, all_applied};
ghost use Rattle.ds_log.specs.Steady.{IsSteady};
ghost use Rattle.ds_snapshot.specs.Snapshots.{snapshot_of};

/// The bodies of a snapshot, from nothing, make exactly what lasts of the server.
pub fn snapshot_law()
    ensures plays { (s : ServerState) → IsSteady s → 0 < s.clock.boot → all_applied (unbooted s.number) (snapshot_of (durable s)) ≡ Some (durable s) }
{}
