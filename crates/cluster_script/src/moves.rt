//! Packets and time.

ghost use Rattle.std.specs.Prelude.{◌≡◌, option_map};
ghost use Rattle.cluster_script.specs.ClusterLines.{between_by, deliver_by, flow_by, pair_by, tick_by, cluster_event};

use crate::args::Args;
use crate::event::ClusterEvent;
use crate::sizes::ClusterSizes;
use crate::words::{node_at, number_within};
use cluster_model::NodeId;
use ff_script::decimal_at;

/// `deliver A B N`, behind its first word.
fn deliver_between<'a>(sizes: ClusterSizes, args: &Args<'a>) -> Option<ClusterEvent<'a>>
    ensures { option_map cluster_event result ≡ between_by sizes args.now }
{
    let (from, to, place) = args.three()?;
    Some(ClusterEvent::DeliverBetween {
        from: node_at(sizes, from)?,
        to: node_at(sizes, to)?,
        place: decimal_at(place)?,
    })
}

/// `deliver K` or `deliver A B N`, behind its first word.
pub fn deliver<'a>(sizes: ClusterSizes, args: &Args<'a>) -> Option<ClusterEvent<'a>>
    ensures { option_map cluster_event result ≡ deliver_by sizes args.now }
{
    match args.one() {
        Some(number) => Some(ClusterEvent::DeliverPacket(decimal_at(number)?)),
        None => deliver_between(sizes, args),
    }
}

/// `flow`, behind its first word.
pub fn flow<'a>(args: &Args<'a>) -> Option<ClusterEvent<'a>>
    ensures { option_map cluster_event result ≡ flow_by args.now }
{
    args.is_empty().then_some(ClusterEvent::Flow)
}

/// Two machines.
pub fn pair(sizes: ClusterSizes, args: &Args<'_>) -> Option<(NodeId, NodeId)>
    ensures { result ≡ pair_by sizes args.now }
{
    let (from, to) = args.two()?;
    Some((node_at(sizes, from)?, node_at(sizes, to)?))
}

/// `tick S`, behind its first word: 1 to 1,000 seconds.
pub fn tick<'a>(args: &Args<'a>) -> Option<ClusterEvent<'a>>
    ensures { option_map cluster_event result ≡ tick_by args.now }
{
    Some(ClusterEvent::Tick(number_within(1, 1_000, args.one()?)?))
}
