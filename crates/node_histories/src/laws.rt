//! A world of a cluster, told by its nodes.

ghost use Rattle.node_histories.specs.NodeHistories.{NewIsToldByNodes, StaysToldByNodes};

/// The journal of a world is woven of the histories of its nodes (RFC 8435, section 1.1, says who they are):
///
/// - so it is of a new world;
/// - and each event in the ranges of a script keeps it so, whatever is delivered, and how often, whatever times out, and
///   whoever leaves or starts again.
///
/// Each entry is what a client or the metadata server entered or sent in its own history, what a data server entered or
/// replied to what came to it, or the world's own; and what a node heard was sent to it. The metadata server sends itself
/// nothing. What the journal says of the data servers' files has to be so before the event, since a reply is told by it.
pub fn node_histories()
    ensures starts { NewIsToldByNodes }
    ensures goes_on { StaysToldByNodes }
{}
