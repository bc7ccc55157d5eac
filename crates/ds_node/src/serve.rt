//! Serving as a data server.

ghost use Rattle.std.specs.Prelude.{◌≡◌, None};
ghost use Rattle.store_disk.specs.Disks.{both_faults};
ghost use Rattle.ff_node.specs.Serve.{beside, disk_faults, link_faults, sink_faults};
ghost use Rattle.ds_node.specs.DsNodes.{ServesAsDs, ServesDisks, end_of_opening};

use crate::node::DsNode;
use ds_store::{KeptServer, OpenCause};
use ff_node::{NoSink, NodeEnd, StillClock, serve_node};
use node_config::Config;
use node_link::{Link, Role};
use std::alloc::Global;
use store_disk::Disk;

/// How a log that could not be opened ends a node.
fn end_of_opening(cause: OpenCause) -> NodeEnd
    ensures { result ≡ end_of_opening cause }
{
    match cause {
        OpenCause::Disk => NodeEnd::DiskFault,
        OpenCause::BadLog(place) => NodeEnd::BadLog(place),
        OpenCause::BootsSpent => NodeEnd::BootsSpent,
        OpenCause::NoMemory => NodeEnd::NoMemory,
    }
}

/// Serves from the log on two disks, over a link that is open.
fn serve_log<D: Disk, L: Link>(
    alloc: Global,
    config: &Config,
    disk: &mut D,
    spare: &mut D,
    link: &mut L,
) -> NodeEnd
    ensures told { ServesDisks config.now (D.told disk.old) (D.told spare.old) (beside (L.coming link.old) (L.sent link.old) None 0 None) result (beside (L.coming link.new) (L.sent link.new) None 0 None) (D.told disk.new) (D.told spare.new) }
    ensures opened { L.opened link.new ≡ L.opened link.old }
    ensures faults { L.faults link.new ≡ link_faults result (L.faults link.old) }
    ensures keeps { both_faults (D.faults disk.new) (D.faults spare.new) ≡ disk_faults result (both_faults (D.faults disk.old) (D.faults spare.old)) }
    ensures writes { sink_faults result 0 ≡ 0 }
    ensures given { L.has_given link.new }
{
    let mut node = match KeptServer::open(alloc, config.own, disk, spare) {
        Ok(kept) => DsNode::new(kept),
        Err(cause) => {
            link.finish();
            return end_of_opening(cause);
        }
    };
    serve_node(
        alloc,
        config.turns,
        Vec::new(alloc),
        &mut node,
        link,
        &mut StillClock,
        &mut NoSink,
        disk,
        spare,
    )
}

/// Serves as the data server of the node's own number, from the log on its disks, over a link, for as many arrivals as the
/// configuration has turns: the server is the one that the log says, in its next boot; a record is answered to the node
/// that it comes from, and no other arrival does anything (RFC 1813). What a call changes for good is in the log, and
/// synced, before it is answered; calls that came together, at most 64, are synced together before any of them is. It needs no clock. The link is opened first, so that where its address is taken the disks
/// are left alone.
///
/// `NodeEnd::LinkFault` is a fault of the link in opening it or in asking for what comes, and nothing else is.
/// `NodeEnd::DiskFault` is one of a disk; `NodeEnd::BadLog` and `NodeEnd::BootsSpent` say that their log is bad, or has
/// the last boot. For want of memory arrivals may have been taken and not answered. However it ends, what it sent went
/// to the streams that take it, and a crash leaves the log of the server as it is behind the arrivals that were answered,
/// or behind those more that came together with the next, none of which was answered.
pub fn serve_ds<D: Disk, L: Link>(
    alloc: Global,
    config: &Config,
    disk: &mut D,
    spare: &mut D,
    link: &mut L,
) -> NodeEnd
    ensures told { ServesAsDs config.now (L.opened link.old) (D.told disk.old) (D.told spare.old) (beside (L.coming link.old) (L.sent link.old) None 0 None) result (L.opened link.new) (D.told disk.new) (D.told spare.new) (beside (L.coming link.new) (L.sent link.new) None 0 None) }
    ensures faults { L.faults link.new ≡ link_faults result (L.faults link.old) }
    ensures keeps { both_faults (D.faults disk.new) (D.faults spare.new) ≡ disk_faults result (both_faults (D.faults disk.old) (D.faults spare.old)) }
    ensures writes { sink_faults result 0 ≡ 0 }
    ensures given { L.has_given link.new }
{
    if let Err(failed) = link.open(config, Role::Server) {
        link.finish();
        return NodeEnd::of_link(failed);
    }
    serve_log(alloc, config, disk, spare, link)
}
