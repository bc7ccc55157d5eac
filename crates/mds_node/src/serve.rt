//! Serving as a metadata server.

ghost use Rattle.std.specs.Prelude.{◌≡◌, ◌≤◌, [], None, length};
ghost use Rattle.node_config.specs.Configs.{config_value};
ghost use Rattle.node_config.specs.declared.config.TheConstants.{MAX_MIRRORS, MAX_SERVERS};
ghost use Rattle.node_link.specs.declared.link.Role.{Role};
ghost use Rattle.mds_rule.specs.MdsStates.{new_mds};
ghost use Rattle.ff_node.specs.Serve.{NodeRuns, OpensThen, beside, disk_faults, link_faults, sink_faults};
ghost use Rattle.mds_node.specs.MdsNodes.{MdsNodeValue, fresh_mds_node, mds_node_rule};

use crate::node::MdsNode;
use ff_node::{NoSink, NodeEnd, serve_node};
use node_config::Config;
use node_link::{Clock, Link, Role};
use std::alloc::Global;
use store_disk::NoDisk;

/// Serves as the metadata server of the configuration's cluster, with no files, over a link, for as many arrivals as the
/// configuration has turns. At each arrival the clock is asked for the moment, in seconds. Where it is above the last one,
/// time passes to it; then the record is taken, or the timeout of the call that it names (RFC 8881, RFC 8435).
///
/// `NodeEnd::LinkFault` is a fault of the link in opening it or in asking for what comes, and nothing else is. For want
/// of memory one arrival may have been taken and not answered. However it ends, what it sent went to the streams that
/// take it.
pub fn serve_mds<L: Link, C: Clock>(
    alloc: Global,
    config: &Config,
    link: &mut L,
    clock: &mut C,
) -> NodeEnd
    requires mirrored { 1 ≤ config.now.mirrors }
    requires few { config.now.mirrors ≤ MAX_MIRRORS }
    requires within { config.now.mirrors ≤ length config.now.servers.items }
    requires servers { length config.now.servers.items ≤ MAX_SERVERS }
    ensures told { OpensThen (L.opened link.old) config.now Role.Mds (beside (L.coming link.old) (L.sent link.old) (C.coming clock.old) (C.moment clock.old) None) result (L.opened link.new) (beside (L.coming link.new) (L.sent link.new) (C.coming clock.new) (C.moment clock.new) None)
        ((node : MdsNodeValue) × NodeRuns mds_node_rule [] (fresh_mds_node (new_mds (config_value config.now).servers (config_value config.now).mirrors)) config.now.turns (beside (L.coming link.old) (L.sent link.old) (C.coming clock.old) (C.moment clock.old) None) result node (beside (L.coming link.new) (L.sent link.new) (C.coming clock.new) (C.moment clock.new) None)) }
    ensures faults { L.faults link.new ≡ link_faults result (L.faults link.old) }
    ensures writes { sink_faults result 0 ≡ 0 }
    ensures keeps { disk_faults result 0 ≡ 0 }
    ensures given { L.has_given link.new }
{
    let Ok(mut node) = MdsNode::new(alloc, config) else {
        link.finish();
        return NodeEnd::NoMemory;
    };
    if let Err(failed) = link.open(config, Role::Mds) {
        link.finish();
        return NodeEnd::of_link(failed);
    }
    serve_node(
        alloc,
        config.turns,
        Vec::new(alloc),
        &mut node,
        link,
        clock,
        &mut NoSink,
        &mut NoDisk,
        &mut NoDisk,
    )
}
