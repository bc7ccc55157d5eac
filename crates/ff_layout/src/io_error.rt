//! What went wrong at a part of a file (RFC 8435, section 9.1.1).

ghost use Rattle.std.specs.Prelude.{refl};
ghost use Rattle.ff_layout.specs.IoError.{ff_ioerr4, ff_ioerr4_value};

use crate::DeviceError;
use ff_xdr::{Array, Cursor, Items, Message, NoMemory, Out, Wire, XdrError};
use nfs4_types::Stateid;

/// The errors that a client met at a part of a file, `ff_ioerr4` (RFC 8435, section 9.1.1).
#[derive(Clone, Copy, Debug)]
pub struct IoErr<'a> {
    /// From which byte on.
    pub offset: u64,
    /// For how many bytes; 2^64 - 1 for all behind.
    pub length: u64,
    /// Of the layout.
    pub stateid: Stateid,
    /// At most 2^32 - 1.
    pub errors: Items<'a, DeviceError>,
}

/// The errors of devices.
type DeviceErrors<'a> = Array<'a, DeviceError, { u32::MAX }>;

impl<'a> Message for IoErr<'a> {
    ghost form = { ff_ioerr4 };

    ghost meaning = { ff_ioerr4_value };

    ghost sound = { refl };
}

impl<'a> Wire<'a> for IoErr<'a> {
    fn read(cursor: &mut Cursor<'a>) -> Result<IoErr<'a>, XdrError> {
        let (offset, length, (stateid, errors)) = <(u64, u64, (Stateid, DeviceErrors<'a>))>::read(
            cursor,
        )?;
        Ok(IoErr {
            offset,
            length,
            stateid,
            errors: errors.items,
        })
    }

    fn put(&self, out: &mut Out) -> Result<(), NoMemory> {
        let errors = DeviceErrors { items: self.errors };
        (self.offset, self.length, (self.stateid, errors)).put(out)
    }

    fn fits(&self) -> bool {
        let errors = DeviceErrors { items: self.errors };
        (self.offset, self.length, (self.stateid, errors)).fits()
    }
}
