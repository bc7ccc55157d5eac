//! LAYOUTRETURN: give layouts back (RFC 8881, section 18.44).

ghost use Rattle.std.specs.Prelude.{refl};
ghost use Rattle.nfs4_file_ops.specs.LayoutReturn.{layoutreturn4, layoutreturn4_value, layoutreturn_file4, layoutreturn_file4_value, layoutreturn4_args, layoutreturn4_args_value};

use ff_xdr::{Cursor, Message, NoMemory, Out, Wire, XdrError};
use nfs4_types::{OpResult, OpaqueBody, Stateid};

/// The layout of a file that is given back, `layoutreturn_file4`.
#[derive(Clone, Copy, Debug, PartialEq, Eq)]
pub struct LayoutReturnFile<'a> {
    /// From which byte on.
    pub offset: u64,
    /// For how many bytes; 2^64 - 1 for all behind.
    pub length: u64,
    /// Of the layout.
    pub stateid: Stateid,
    /// In a form of the layout type's own.
    pub body: OpaqueBody<'a>,
}

impl<'a> Message for LayoutReturnFile<'a> {
    ghost form = { layoutreturn_file4 };

    ghost meaning = { layoutreturn_file4_value };

    ghost sound = { refl };
}

impl<'a> Wire<'a> for LayoutReturnFile<'a> {
    fn read(cursor: &mut Cursor<'a>) -> Result<LayoutReturnFile<'a>, XdrError> {
        let (offset, length, (stateid, body)) = Wire::read(cursor)?;
        Ok(LayoutReturnFile {
            offset,
            length,
            stateid,
            body,
        })
    }

    fn put(&self, out: &mut Out) -> Result<(), NoMemory> {
        (self.offset, self.length, (self.stateid, self.body)).put(out)
    }

    fn fits(&self) -> bool {
        (self.offset, self.length, (self.stateid, self.body)).fits()
    }
}

/// Which layouts are given back, a union by the kind, `layoutreturn4`.
#[derive(Clone, Copy, Debug, PartialEq, Eq)]
pub enum LayoutReturn<'a> {
    /// One of a file.
    File(LayoutReturnFile<'a>),
    /// All of the current file system.
    Fsid,
    /// All of the client.
    All,
}

impl<'a> Message for LayoutReturn<'a> {
    ghost form = { layoutreturn4 };

    ghost meaning = { layoutreturn4_value };

    ghost sound = { refl };
}

impl<'a> Wire<'a> for LayoutReturn<'a> {
    fn read(cursor: &mut Cursor<'a>) -> Result<LayoutReturn<'a>, XdrError> {
        let mut fork = cursor.fork();
        let kind = match fork.number32()? {
            1 => LayoutReturn::File(Wire::read(&mut fork)?),
            2 => LayoutReturn::Fsid,
            3 => LayoutReturn::All,
            _ => return Err(XdrError::not_enum(cursor.place())),
        };
        *cursor = fork;
        Ok(kind)
    }

    fn put(&self, out: &mut Out) -> Result<(), NoMemory> {
        match self {
            LayoutReturn::File(body) => (1u32, *body).put(out),
            LayoutReturn::Fsid => 2u32.put(out),
            LayoutReturn::All => 3u32.put(out),
        }
    }

    fn fits(&self) -> bool {
        match self {
            LayoutReturn::File(body) => body.fits(),
            LayoutReturn::Fsid => true,
            LayoutReturn::All => true,
        }
    }
}

/// The arguments, `LAYOUTRETURN4args`.
#[derive(Clone, Copy, Debug, PartialEq, Eq)]
pub struct LayoutReturnArgs<'a> {
    pub reclaim: bool,
    /// 4 for flexible files (RFC 8435).
    pub layout_type: u32,
    /// 1 for reading, 2 for reading and writing, 3 for any.
    pub iomode: u32,
    pub kind: LayoutReturn<'a>,
}

impl<'a> Message for LayoutReturnArgs<'a> {
    ghost form = { layoutreturn4_args };

    ghost meaning = { layoutreturn4_args_value };

    ghost sound = { refl };
}

impl<'a> Wire<'a> for LayoutReturnArgs<'a> {
    fn read(cursor: &mut Cursor<'a>) -> Result<LayoutReturnArgs<'a>, XdrError> {
        let (reclaim, layout_type, (iomode, kind)) = Wire::read(cursor)?;
        Ok(LayoutReturnArgs {
            reclaim,
            layout_type,
            iomode,
            kind,
        })
    }

    fn put(&self, out: &mut Out) -> Result<(), NoMemory> {
        (self.reclaim, self.layout_type, (self.iomode, self.kind)).put(out)
    }

    fn fits(&self) -> bool {
        (self.reclaim, self.layout_type, (self.iomode, self.kind)).fits()
    }
}

/// The result, `LAYOUTRETURN4res`: the stateid of what is left, where some is.
pub type LayoutReturnRes = OpResult<Option<Stateid>>;
