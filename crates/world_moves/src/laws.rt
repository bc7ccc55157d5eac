//! A world of a cluster, and a run of the cluster's machine.

ghost use Rattle.std.specs.Prelude.{ℕ, List, ◌≤◌, ◌<◌, ◌^◌, replicate};
ghost use Rattle.cluster_model.specs.Event.{EventValue};
ghost use Rattle.cluster_laws.specs.FenceLaw.{ObeysFences};
ghost use Rattle.cluster_laws.specs.Periods.{ArePeriodsFenced, DoOwnersStay};
ghost use Rattle.world_rule.specs.ClusterWorlds.{ClusterState, new_cluster, behind};
ghost use Rattle.world_moves.specs.WorldMoves.{IsRunOf, TellsTruth};

use client_sends::client_sends;
use cluster_laws::{fence_law, run_laws, telling_entries};
use mds_forms::mds_forms;
use mds_moves::mds_moves;
use proper_servers::proper_servers;
use user_records::user_records;

/// The journal of a world of a cluster tells, event by event, what a run of the cluster's machine tells:
///
/// - so it is of a new world of fewer than 2^32 data servers, where one to four mirrors are wanted, and there are so many
///   data servers;
/// - and each event keeps it so, whatever is delivered, and how often, whatever times out, and whatever clients do.
///
/// So the fence law, the law of periods and that owners stay hold of the journal (RFC 8435, section 2.2), and what it
/// says of the bytes, the pending writes and the owner of each mirror is so at its data server.
pub fn world_moves()
    ensures starts { (servers mirrors clients : ℕ) → servers < 2 ^ 32 → 1 ≤ mirrors → mirrors ≤ 4 → mirrors ≤ servers → IsRunOf (replicate servers 1) (new_cluster servers mirrors clients) }
    ensures goes_on { (boots : List ℕ) (event : EventValue) (w : ClusterState) → IsRunOf boots w → IsRunOf boots (behind event w) }
    ensures fences { (boots : List ℕ) (w : ClusterState) → IsRunOf boots w → ObeysFences w.journal }
    ensures periods { (boots : List ℕ) (w : ClusterState) → IsRunOf boots w → ArePeriodsFenced w.journal }
    ensures owners { (boots : List ℕ) (w : ClusterState) → IsRunOf boots w → DoOwnersStay w.journal }
    ensures truth { (boots : List ℕ) (w : ClusterState) → IsRunOf boots w → TellsTruth w }
{
    fence_law();
    run_laws();
    telling_entries();
    mds_forms();
    mds_moves();
    client_sends();
    user_records();
    proper_servers();
}
