//! A stream, and the connection over it.

ghost use Rattle.std.specs.Prelude.{◌≡◌, ◌<◌, IfOk};
ghost use Rattle.record_link.specs.Connection.{Fills, Drains};
ghost use Rattle.record_link.specs.Stream.{lost_more};

use crate::connection::Connection;
use crate::stream::{Halt, Stream};

/// A stream, and what came and what goes on it.
#[derive(Drop)]
pub struct StreamConnection<S> {
    /// What carries the bytes.
    pub stream: S,
    /// What came and what goes.
    pub connection: Connection,
}

impl<S: Stream> StreamConnection<S> {
    /// Reads once from its stream, and keeps what came behind the bytes ahead.
    pub fn fill(&mut self) -> Result<usize, Halt>
        ensures told { Fills self.old.connection (S.coming self.old.stream) result self.new.connection (S.coming self.new.stream) }
        ensures some { IfOk result (λ n. 0 < n) }
        ensures gone { S.gone self.new.stream ≡ S.gone self.old.stream }
        ensures faults { S.faults self.new.stream ≡ lost_more result (S.faults self.old.stream) }
    {
        self.connection.fill(&mut self.stream)
    }

    /// Writes what is to go to its stream, until all went or the stream takes no more.
    pub fn drain(&mut self) -> Result<(), Halt>
        ensures told { Drains self.old.connection (S.gone self.old.stream) result self.new.connection (S.gone self.new.stream) }
        ensures coming { S.coming self.new.stream ≡ S.coming self.old.stream }
        ensures faults { S.faults self.new.stream ≡ lost_more result (S.faults self.old.stream) }
    {
        self.connection.drain(&mut self.stream)
    }
}
