//! One of the connections: the one of a number, the one that may be closed for another.

ghost use Rattle.std.specs.Prelude.{◌≡◌, ◌<◌, nat_lt, ◌&&◌, MatchOption, length, IfSome};
ghost use Rattle.record_link.specs.Peers.{is_spare};
ghost use Rattle.record_server.specs.Server.{AreRising, HasNoNumber, HasNoSpare, IsPlaceOf, IsLongestSpare};

use record_link::{Peer, Stream};

/// The place of the connection of this number, in a list in which the numbers rise.
pub fn find<S: Stream>(peers: &[Peer<S>], number: u32) -> Option<usize>
    requires { AreRising 0 peers.now }
    ensures told { MatchOption result (HasNoNumber number peers.now) (λ place. IsPlaceOf number peers.now place) }
    ensures within { IfSome result (λ place. place < length peers.now) }
{
    peers
        .binary_search_by_key(&number, |peer| peer.number())
        .ok()
}

/// The place of the one that was silent for the longest time, of those that may be closed to make room for
/// another at this time.
pub fn longest_spare<S: Stream>(peers: &[Peer<S>], time: u64) -> Option<usize>
    ensures told { MatchOption result (HasNoSpare time peers.now) (λ place. IsLongestSpare time peers.now place) }
    ensures within { IfSome result (λ place. place < length peers.now) }
{
    let mut best = None;
    // when it was heard
    let mut heard = u64::MAX;
    for place in 0..peers.len() {
        if is_longer(&peers[place], time, heard) {
            best = Some(place);
            heard = peers[place].heard();
        }
    }
    best
}

/// It may be closed to make room for another at this time, and was heard before then.
fn is_longer<S: Stream>(peer: &Peer<S>, time: u64, heard: u64) -> bool
    ensures { result ≡ (is_spare time peer.now && nat_lt peer.now.heard heard) }
{
    peer.is_spare(time) && peer.heard() < heard
}
