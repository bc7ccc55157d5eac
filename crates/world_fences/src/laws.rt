//! What it means, in a cluster's world, that a data server refuses a holder's call.

ghost use Rattle.world_fences.specs.WorldFences.{EachRefusalIsAnEnd};

use client_records::client_records;
use client_sends::client_sends;
use client_sessions::client_sessions;
use cluster_laws::telling_entries;
use cluster_model::server_guards;
use proper_servers::proper_servers;
use world_moves::world_moves;

/// In a world whose layouts are in order, where the mirrors of each period that had not ended belonged to its uid whenever a
/// record came: a client hears that a WRITE or a COMMIT of its layout was refused as NFS3ERR_ACCES or NFS3ERR_STALE only where
/// the metadata server has entered that the period of this layout ended (RFC 8435, section 2.2; RFC 1813, section 2.6).
pub fn world_fences()
    ensures refusals { EachRefusalIsAnEnd }
{
    client_records();
    client_sends();
    client_sessions();
    telling_entries();
    server_guards();
    proper_servers();
    world_moves();
}
