//! What the lines of a script say.

ghost use Rattle.std.specs.Prelude.{◌≡◌, IfSome, option_map};
ghost use Rattle.cluster_script.specs.ClusterLines.{cluster_event, event_at};
ghost use Rattle.cluster_world.specs.WorldSteps.{IsOfScript};
ghost use Rattle.ff_replay.specs.Script.{line_in, setup_in};
ghost use Rattle.ff_replay.specs.Player.{IsLineOf, IsSetup, is_comment, is_flow, line_said};

use crate::setup::Setup;
use cluster_script::{ClusterEvent, ClusterSizes, parse_cluster, parse_event};
use ff_script::{BareEvent, parse_bare_event};

/// What happens next.
#[derive(Debug, Drop)]
pub enum Event<'a> {
    /// In the world of one data server.
    Bare(BareEvent<'a>),
    /// In that of a cluster.
    Cluster(ClusterEvent<'a>),
}

/// What a line of a script says.
#[derive(Debug, Drop)]
pub enum Line<'a> {
    /// Nothing: it is empty or a comment.
    Nothing,
    /// The setup is chosen.
    Setup(Setup),
    /// Something happens.
    Event(Event<'a>),
}

/// An empty line, or one that begins with `#`.
fn is_comment(line: &[u8]) -> bool
    ensures { result ≡ is_comment line.now }
{
    match line.first() {
        None => true,
        Some(first) => *first == b'#',
    }
}

/// A line of words that chooses the setup. `None` is any other line.
fn parse_setup(line: &[u8]) -> Option<Setup>
    ensures said { result ≡ setup_in line.now }
    ensures sized { IfSome result (λ setup. IsSetup setup) }
{
    if line == b"bare".as_slice() {
        return Some(Setup::Bare);
    }
    Some(Setup::Cluster(parse_cluster(line)?))
}

/// A line of words behind `cluster`. `None` is a line that no script of this cluster has.
fn parse_cluster_event<'a>(sizes: ClusterSizes, line: &'a [u8]) -> Option<ClusterEvent<'a>>
    ensures said { option_map cluster_event result ≡ event_at sizes line.now }
    ensures asked { IfSome result (λ event. IsOfScript (cluster_event event)) }
{
    parse_event(sizes, line)
}

/// What a line of a script says, by the setup that was chosen before, if one was. `None` is a line that no script has there.
/// An event borrows its name, its digits and its pieces from the line. Takes no memory.
pub fn parse_line<'a>(setup: Option<Setup>, line: &'a [u8]) -> Option<Line<'a>>
    ensures said { option_map line_said result ≡ line_in setup line.now }
    ensures fits { IfSome result (λ said. IsLineOf setup said) }
{
    if is_comment(line) {
        return Some(Line::Nothing);
    }
    match setup {
        None => Some(Line::Setup(parse_setup(line)?)),
        Some(Setup::Bare) => Some(Line::Event(Event::Bare(parse_bare_event(line)?))),
        Some(Setup::Cluster(sizes)) => {
            Some(Line::Event(Event::Cluster(parse_cluster_event(sizes, line)?)))
        }
    }
}

/// The event is a flow.
pub fn is_flow(event: &ClusterEvent<'_>) -> bool
    ensures { result ≡ is_flow (cluster_event event.now) }
{
    match event {
        ClusterEvent::Flow => true,
        _ => false,
    }
}
