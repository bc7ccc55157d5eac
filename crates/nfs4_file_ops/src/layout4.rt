//! A layout (RFC 8881, section 3.3.17).

ghost use Rattle.std.specs.Prelude.{refl};
ghost use Rattle.nfs4_file_ops.specs.Layout4.{layout4, layout4_value};

use ff_xdr::{Cursor, Message, NoMemory, Out, Wire, XdrError};
use nfs4_types::OpaqueBody;

/// A layout, `layout4`.
#[derive(Clone, Copy, Debug, PartialEq, Eq)]
pub struct Layout4<'a> {
    /// From which byte on.
    pub offset: u64,
    /// For how many bytes; 2^64 - 1 for all behind.
    pub length: u64,
    /// 1 for reading, 2 for reading and writing.
    pub iomode: u32,
    /// 4 for flexible files (RFC 8435).
    pub layout_type: u32,
    /// In a form of the layout type's own.
    pub body: OpaqueBody<'a>,
}

impl<'a> Message for Layout4<'a> {
    ghost form = { layout4 };

    ghost meaning = { layout4_value };

    ghost sound = { refl };
}

impl<'a> Wire<'a> for Layout4<'a> {
    fn read(cursor: &mut Cursor<'a>) -> Result<Layout4<'a>, XdrError> {
        let (offset, length, (iomode, layout_type, body)) = Wire::read(cursor)?;
        Ok(Layout4 {
            offset,
            length,
            iomode,
            layout_type,
            body,
        })
    }

    fn put(&self, out: &mut Out) -> Result<(), NoMemory> {
        (
            self.offset,
            self.length,
            (self.iomode, self.layout_type, self.body),
        )
            .put(out)
    }

    fn fits(&self) -> bool {
        (
            self.offset,
            self.length,
            (self.iomode, self.layout_type, self.body),
        )
            .fits()
    }
}
