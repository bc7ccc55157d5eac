//! Text to a sink.

ghost use Rattle.std.specs.Prelude.{◌≡◌, ◌<◌, OnErr, length};
ghost use Rattle.rpc_record.specs.Stream.{counted};
ghost use Rattle.line_runs.specs.Writing.{WritesText};

use rpc_record::{Failed, Sink};

/// Writes all of the bytes. At an error the sink has taken a beginning of them.
pub fn write_all<K: Sink>(sink: &mut K, bytes: &[u8]) -> Result<(), Failed>
    ensures told { WritesText (K.held sink.old) bytes.now result (K.held sink.new) }
    ensures faults { K.faults sink.new ≡ counted result (K.faults sink.old) }
    ensures some { OnErr result (0 < length bytes.now) }
{
    let mut rest = bytes;
    while !rest.is_empty() {
        let taken = sink.write(rest)?;
        rest = &rest[taken..];
    }
    Ok(())
}
