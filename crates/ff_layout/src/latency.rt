//! How long calls took (RFC 8435, section 9.2.1).

ghost use Rattle.std.specs.Prelude.{refl};
ghost use Rattle.ff_layout.specs.Latency.{ff_io_latency4, ff_io_latency4_value};

use ff_xdr::{Cursor, Message, NoMemory, Out, Wire, XdrError};
use nfs4_types::Time4;

/// How many calls of a kind there were and how long they took, `ff_io_latency4` (RFC 8435, section
/// 9.2.1).
#[derive(Clone, Copy, Debug, PartialEq, Eq)]
pub struct Latency {
    /// Calls that were asked for, bytes that were; calls that were done, bytes that were; bytes that
    /// were asked for and not delivered.
    pub counts: [u64; 5],
    /// How long the client was busy with such calls; how long they took, all together.
    pub times: [Time4; 2],
}

impl Message for Latency {
    ghost form = { ff_io_latency4 };

    ghost meaning = { ff_io_latency4_value };

    ghost sound = { refl };
}

impl<'a> Wire<'a> for Latency {
    fn read(cursor: &mut Cursor<'a>) -> Result<Latency, XdrError> {
        let (asked, asked_bytes, (done, done_bytes, (missed_bytes, busy, taken))) = Wire::read(
            cursor,
        )?;
        Ok(Latency {
            counts: [asked, asked_bytes, done, done_bytes, missed_bytes],
            times: [busy, taken],
        })
    }

    fn put(&self, out: &mut Out) -> Result<(), NoMemory> {
        let [asked, asked_bytes, done, done_bytes, missed_bytes] = self.counts;
        let [busy, taken] = self.times;
        (
            asked,
            asked_bytes,
            (done, done_bytes, (missed_bytes, busy, taken)),
        )
            .put(out)
    }

    fn fits(&self) -> bool {
        let [asked, asked_bytes, done, done_bytes, missed_bytes] = self.counts;
        let [busy, taken] = self.times;
        (
            asked,
            asked_bytes,
            (done, done_bytes, (missed_bytes, busy, taken)),
        )
            .fits()
    }
}
