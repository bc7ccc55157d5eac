//! A world of a cluster, and a bound run of the cluster's machine.

ghost use Rattle.bound_worlds.specs.BoundWorlds.{NewIsBoundRun, StaysBoundRun, EventsBeginOtherwise, BoundRunsAgree, BoundRunsOwn};

use agreement_law::agreement_law;
use client_sends::client_sends;
use cluster_laws::telling_entries;
use ds_calls::every_ds_call;
use held_mirrors::held_mirrors;
use mds_forms::mds_forms;
use mds_laws::own_periods_law;
use mds_moves::{mds_binds, mds_moves};
use proper_servers::proper_servers;
use user_records::user_records;

/// The journal of a world in which holders of write layouts keep their part tells what a bound run of the cluster's machine
/// tells:
///
/// - so it is of a new world of fewer than 2^32 data servers, where one to four mirrors are wanted, and there are so many
///   data servers;
/// - and each event keeps it so, as long as holders keep their part in the journal behind it, and a tick of the metadata
///   server does not begin with the end of its own write, as none does whose events began with a new one.
///
/// So each file of it agrees on all its mirrors, with what clients were told, at every moment (RFC 8435, section 8); and the
/// mirrors of a period belong to its uid until it ends (section 2.2).
pub fn bound_worlds()
    ensures starts { NewIsBoundRun }
    ensures goes_on { StaysBoundRun }
    ensures otherwise { EventsBeginOtherwise }
    ensures agrees { BoundRunsAgree }
    ensures owners { BoundRunsOwn }
{
    agreement_law();
    telling_entries();
    held_mirrors();
    every_ds_call();
    mds_forms();
    own_periods_law();
    mds_moves();
    mds_binds();
    client_sends();
    user_records();
    proper_servers();
}
