//! When a node is given a moment.

ghost use Rattle.std.specs.Prelude.{◌≡◌};
ghost use Rattle.ff_node.specs.Nodes.{is_new_moment};

/// Whether a moment, in seconds, is above the last one that a node was given; the first is.
pub fn is_new_moment(last: Option<u64>, moment: u64) -> bool
    ensures { result ≡ is_new_moment last moment }
{
    match last {
        Some(last) => last < moment,
        None => true,
    }
}
