//! The lines of a cluster's script, by their first words.

ghost use Rattle.std.specs.Prelude.{◌≡◌, ◌∷◌, option_map};
ghost use Rattle.cluster_script.specs.ClusterLines.{cluster_at, moves_by, requests_by, others_by, event_at, cluster_event};

use crate::args::{Args, split_first};
use crate::event::ClusterEvent;
use crate::files::{file, restart};
use crate::moves::{deliver, flow, pair, tick};
use crate::requests::{client, fill, open, read, stray, written};
use crate::sizes::ClusterSizes;
use crate::words::{is_word, number_within};

/// The line that sets a cluster up: `cluster S K C`, of S data servers, 1 to 16, K mirrors a file, 1 to 4 and at most S, and C
/// clients, 1 to 256. `None` is any other line. Takes no memory.
pub fn parse_cluster(line: &[u8]) -> Option<ClusterSizes>
    ensures { result ≡ cluster_at line.now }
{
    let (word, args) = split_first(line);
    if !is_word(word, b"cluster") {
        return None;
    }
    let (servers, mirrors, clients) = args.three()?;
    let servers = number_within(1, 16, servers)?;
    let mirrors = number_within(1, 4, mirrors)?;
    let clients = number_within(1, 256, clients)?;
    (mirrors <= servers).then_some(ClusterSizes {
        servers,
        mirrors,
        clients,
    })
}

/// Packets and time; any other word is looked for among the requests of users.
fn parse_move<'a>(sizes: ClusterSizes, word: &[u8], args: &Args<'a>) -> Option<ClusterEvent<'a>>
    ensures { option_map cluster_event result ≡ moves_by sizes word.now args.now }
{
    if is_word(word, b"deliver") {
        return deliver(sizes, args);
    }
    if is_word(word, b"flow") {
        return flow(args);
    }
    if is_word(word, b"hold") {
        let (from, to) = pair(sizes, args)?;
        return Some(ClusterEvent::Hold { from, to });
    }
    if is_word(word, b"pass") {
        let (from, to) = pair(sizes, args)?;
        return Some(ClusterEvent::Pass { from, to });
    }
    if is_word(word, b"timeout") {
        let (node, to) = pair(sizes, args)?;
        return Some(ClusterEvent::Timeout { node, to });
    }
    if is_word(word, b"tick") {
        return tick(args);
    }
    parse_request(sizes, word, args)
}

/// Requests of users; any other word is looked for among the lines on machines and files.
fn parse_request<'a>(sizes: ClusterSizes, word: &[u8], args: &Args<'a>) -> Option<ClusterEvent<'a>>
    ensures { option_map cluster_event result ≡ requests_by sizes word.now args.now }
{
    if is_word(word, b"open") {
        return open(sizes, args);
    }
    if is_word(word, b"write") {
        let (client, at, bytes) = written(sizes, args)?;
        return Some(ClusterEvent::Write { client, at, bytes });
    }
    if is_word(word, b"through") {
        let (client, at, bytes) = written(sizes, args)?;
        return Some(ClusterEvent::Through { client, at, bytes });
    }
    if is_word(word, b"fill") {
        return fill(sizes, args);
    }
    if is_word(word, b"commit") {
        return Some(ClusterEvent::Commit(client(sizes, args)?));
    }
    if is_word(word, b"read") {
        return read(sizes, args);
    }
    if is_word(word, b"return") {
        return Some(ClusterEvent::Return(client(sizes, args)?));
    }
    parse_other(sizes, word, args)
}

/// Machines and files.
fn parse_other<'a>(sizes: ClusterSizes, word: &[u8], args: &Args<'a>) -> Option<ClusterEvent<'a>>
    ensures { option_map cluster_event result ≡ others_by sizes word.now args.now }
{
    if is_word(word, b"rogue") {
        return Some(ClusterEvent::Rogue(client(sizes, args)?));
    }
    if is_word(word, b"stray") {
        return stray(sizes, args);
    }
    if is_word(word, b"reboot") {
        return Some(ClusterEvent::Reboot(client(sizes, args)?));
    }
    if is_word(word, b"restart") {
        return restart(sizes, args);
    }
    if is_word(word, b"recall") {
        return Some(ClusterEvent::Recall(file(args)?));
    }
    if is_word(word, b"resilver") {
        return Some(ClusterEvent::Resilver(file(args)?));
    }
    if is_word(word, b"audit") {
        return Some(ClusterEvent::Audit(file(args)?));
    }
    None
}

/// What a line behind the setup says. `None` is a line that no script of this cluster has. Takes no memory.
pub fn parse_event<'a>(sizes: ClusterSizes, line: &'a [u8]) -> Option<ClusterEvent<'a>>
    ensures { option_map cluster_event result ≡ event_at sizes line.now }
{
    let (word, args) = split_first(line);
    parse_move(sizes, word, &args)
}
