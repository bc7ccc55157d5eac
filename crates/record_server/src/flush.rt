//! The end of a server: what is to go goes.

ghost use Rattle.std.specs.Prelude.{◌≡◌, ◌<◌, ℕ, length};
ghost use Rattle.record_server.specs.Server.{DoesStep, Ends, Flushes, HasGivenAll, Passes, PushesAll, PushesAt, PushesOn, has_settled};

use crate::network::Network;
use crate::rounds::WAIT;
use crate::server::RecordServer;
use record_link::{Peer, Stream};

/// Writes what is to go on the connection at a place.
fn push_at<S: Stream>(peers: &mut [Peer<S>], place: usize, time: u64)
    requires { place < length peers.old }
    ensures { PushesAt place time peers.old peers.new }
{
    let peer = &mut peers[place];
    peer.resume();
    peer.write(time);
}

/// Nothing is to go on any connection, but on those that are over.
fn has_settled<S: Stream>(peers: &[Peer<S>]) -> bool
    ensures { result ≡ has_settled peers.now }
{
    peers
        .iter()
        .all(|peer| peer.waiting() == 0 || peer.is_to_close())
}

impl<N: Network + Drop> RecordServer<N> {
    /// Writes all that is to go, and returns when it went. A connection whose peer takes nothing for two
    /// seconds, or whose stream is of no use any more, is closed.
    pub fn flush(&mut self)
        ensures { Flushes self.old self.new }
    {
        for _turn in 0..u64::MAX {
            if !self.push_on() {
                break;
            }
        }
        self.close_owing();
    }

    /// Writes once what is to go on each connection, and waits where that is not all that will. Answers
    /// whether more may go.
    fn push_on(&mut self) -> bool
        ensures { PushesOn self.old result self.new }
    {
        self.push_all();
        if has_settled(&self.peers) {
            return false;
        }
        self.pass()
    }

    /// Writes once what is to go on each connection, in order.
    fn push_all(&mut self)
        ensures { PushesAll self.old self.new }
    {
        let time = self.time;
        for place in 0..self.peers.len() {
            push_at(&mut self.peers, place, time);
        }
    }

    /// Waits until something may be written. Answers whether it could.
    fn pass(&mut self) -> bool
        ensures { (time : ℕ) × DoesStep (Passes result time) self.old self.new }
    {
        let could = self.network.wait(WAIT);
        self.time = self.time.max(self.network.time());
        could
    }

    /// Closes the connections on which something is to go.
    fn close_owing(&mut self)
        ensures ends { DoesStep Ends self.old self.new }
        ensures given { HasGivenAll self.new }
    {
        self.peers.retain(|peer| peer.waiting() == 0);
        self.place = 0;
        self.handed = 0;
    }
}
