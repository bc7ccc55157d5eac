//! What a client read and wrote at a data server (RFC 8435, section 9.2.3).

ghost use Rattle.std.specs.Prelude.{refl};
ghost use Rattle.ff_layout.specs.IoStats.{ff_iostats4, ff_iostats4_value};

use crate::Latency;
use ff_xdr::{Cursor, Message, NoMemory, Out, Wire, XdrError};
use nfs4_types::{DeviceId, FreeText, Handle4, Stateid, Time4};

/// What a client read and wrote at a data server, `ff_iostats4` (RFC 8435, section 9.2.3).
#[derive(Clone, Copy, Debug, PartialEq, Eq)]
pub struct IoStats<'a> {
    /// From which byte of the file on.
    pub offset: u64,
    /// For how many bytes; 2^64 - 1 for all behind.
    pub length: u64,
    /// Of the layout.
    pub stateid: Stateid,
    /// How many calls that read, and how many bytes they read.
    pub read_count: u64,
    pub read_bytes: u64,
    /// How many calls that wrote, and how many bytes they wrote.
    pub write_count: u64,
    pub write_bytes: u64,
    pub device: DeviceId,
    /// Which of the device's addresses was used: the network and the universal address (RFC 5665).
    pub netid: &'a str,
    pub address: &'a str,
    /// Of the file at the data server.
    pub handle: Handle4<'a>,
    pub read_latency: Latency,
    pub write_latency: Latency,
    /// Over how long a time this was counted.
    pub duration: Time4,
    /// The client and the data server are one machine.
    pub local: bool,
}

/// How many calls there were, and how many bytes in them.
type Counts = (u64, u64);

/// What was seen at one address of a device, `ff_layoutupdate4` (RFC 8435, section 9.2.2).
type Update<'a> = (
    (FreeText<'a>, FreeText<'a>),
    Handle4<'a>,
    (Latency, Latency, (Time4, bool)),
);

/// The record by its parts.
type Parts<'a> = (u64, u64, (Stateid, Counts, (Counts, DeviceId, Update<'a>)));

impl<'a> Message for IoStats<'a> {
    ghost form = { ff_iostats4 };

    ghost meaning = { ff_iostats4_value };

    ghost sound = { refl };
}

impl<'a> Wire<'a> for IoStats<'a> {
    fn read(cursor: &mut Cursor<'a>) -> Result<IoStats<'a>, XdrError> {
        let (offset, length, (stateid, reads, (writes, device, update))) = Parts::read(cursor)?;
        let ((netid, address), handle, (read_latency, write_latency, (duration, local))) = update;
        Ok(IoStats {
            offset,
            length,
            stateid,
            read_count: reads.0,
            read_bytes: reads.1,
            write_count: writes.0,
            write_bytes: writes.1,
            device,
            netid: netid.text,
            address: address.text,
            handle,
            read_latency,
            write_latency,
            duration,
            local,
        })
    }

    fn put(&self, out: &mut Out) -> Result<(), NoMemory> {
        let netid = FreeText { text: self.netid };
        let address = FreeText { text: self.address };
        let update = (
            (netid, address),
            self.handle,
            (
                self.read_latency,
                self.write_latency,
                (self.duration, self.local),
            ),
        );
        let reads = (self.read_count, self.read_bytes);
        let writes = (self.write_count, self.write_bytes);
        (
            self.offset,
            self.length,
            (self.stateid, reads, (writes, self.device, update)),
        )
            .put(out)
    }

    fn fits(&self) -> bool {
        let netid = FreeText { text: self.netid };
        let address = FreeText { text: self.address };
        let update = (
            (netid, address),
            self.handle,
            (
                self.read_latency,
                self.write_latency,
                (self.duration, self.local),
            ),
        );
        let reads = (self.read_count, self.read_bytes);
        let writes = (self.write_count, self.write_bytes);
        (
            self.offset,
            self.length,
            (self.stateid, reads, (writes, self.device, update)),
        )
            .fits()
    }
}
