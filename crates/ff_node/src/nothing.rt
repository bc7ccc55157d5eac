//! What a node is given that needs no clock, or writes nothing.

ghost use Rattle.std.specs.Prelude.{None};

use node_link::Clock;
use rpc_record::{Failed, Sink};

/// A clock that stands still, for a node whose rule does not look at moments.
#[derive(Drop)]
pub struct StillClock;

impl Clock for StillClock {
    ghost moment = { λ _. 0 };

    ghost coming = { λ _. None };

    fn now(&mut self) -> u64 {
        0
    }
}

/// A sink for a node that writes nothing. It takes all bytes, keeps none and never fails.
#[derive(Drop)]
pub struct NoSink;

impl Sink for NoSink {
    ghost faults = { λ _. 0 };

    ghost held = { λ _. None };

    fn write(&mut self, piece: &[u8]) -> Result<usize, Failed> {
        Ok(piece.len())
    }
}
