//! The read law of a world of a cluster.

ghost use Rattle.std.specs.Prelude.{ℕ, List, length, ◌<◌, ◌^◌};
ghost use Rattle.world_rule.specs.ClusterWorlds.{ClusterState};
ghost use Rattle.ff_laws.specs.ReadLaw.{ObeysReads};
ghost use Rattle.node_histories.specs.NodeHistories.{IsToldByNodes};
ghost use Rattle.world_moves.specs.WorldMoves.{IsRunOf};
ghost use Rattle.world_journal.specs.Journal.{IsJournalInRange};

use client_mds_calls::every_mds_call;
use client_records::client_records;
use ds_calls::every_ds_call;
use mds_laws::mds_run_law;
use nfs4_compound::every_listing;
use proper_servers::proper_servers;
use read_runs::read_runs;
use rpc_record::every_message;

/// In the journal of every world of a cluster of fewer than 2^32 clients, each READ that the metadata server answers goes
/// back to its request: the first reply behind the answer is the client's, all that the client sent under that number is
/// this READ, and the answer has bytes that a mirror, live at the start, showed since then, or each such mirror left or
/// was asked and failed (RFC 8881, section 18.22; RFC 1813, section 3.3.6).
///
/// It is so where the records of the journal are of bytes, and the fileids of its mirrors have eight.
pub fn world_reads()
    ensures reads { (boots : List ℕ) (w : ClusterState) → IsRunOf boots w → IsToldByNodes w → length w.machines.clients < 2 ^ 32 → IsJournalInRange w.journal → ObeysReads w.journal }
{
    client_records();
    every_ds_call();
    every_mds_call();
    mds_run_law();
    every_listing();
    proper_servers();
    read_runs();
    every_message();
}
