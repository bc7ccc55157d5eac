//! CB_LAYOUTRECALL: layouts are asked back (RFC 8881, section 20.3).

ghost use Rattle.std.specs.Prelude.{refl};
ghost use Rattle.nfs4_file_ops.specs.CbLayoutRecall.{layoutrecall4, layoutrecall4_value, layoutrecall_file4, layoutrecall_file4_value, fsid4, fsid4_value, cb_layoutrecall4_args, cb_layoutrecall4_args_value};

use ff_xdr::{Cursor, Message, NoMemory, Out, Wire, XdrError};
use nfs4_types::{Handle4, OpResult, Stateid};

/// The layout of a file that is asked back, `layoutrecall_file4`.
#[derive(Clone, Copy, Debug, PartialEq, Eq)]
pub struct LayoutRecallFile<'a> {
    pub file: Handle4<'a>,
    /// From which byte on.
    pub offset: u64,
    /// For how many bytes; 2^64 - 1 for all behind.
    pub length: u64,
    /// Of the layout.
    pub stateid: Stateid,
}

impl<'a> Message for LayoutRecallFile<'a> {
    ghost form = { layoutrecall_file4 };

    ghost meaning = { layoutrecall_file4_value };

    ghost sound = { refl };
}

impl<'a> Wire<'a> for LayoutRecallFile<'a> {
    fn read(cursor: &mut Cursor<'a>) -> Result<LayoutRecallFile<'a>, XdrError> {
        let (file, offset, (length, stateid)) = Wire::read(cursor)?;
        Ok(LayoutRecallFile {
            file,
            offset,
            length,
            stateid,
        })
    }

    fn put(&self, out: &mut Out) -> Result<(), NoMemory> {
        (self.file, self.offset, (self.length, self.stateid)).put(out)
    }

    fn fits(&self) -> bool {
        (self.file, self.offset, (self.length, self.stateid)).fits()
    }
}

/// A file system, `fsid4` (RFC 8881, section 3.3.5).
#[derive(Clone, Copy, Debug, PartialEq, Eq)]
pub struct Fsid4 {
    pub major: u64,
    pub minor: u64,
}

impl Message for Fsid4 {
    ghost form = { fsid4 };

    ghost meaning = { fsid4_value };

    ghost sound = { refl };
}

impl<'a> Wire<'a> for Fsid4 {
    fn read(cursor: &mut Cursor<'a>) -> Result<Fsid4, XdrError> {
        let (major, minor) = Wire::read(cursor)?;
        Ok(Fsid4 { major, minor })
    }

    fn put(&self, out: &mut Out) -> Result<(), NoMemory> {
        (self.major, self.minor).put(out)
    }

    fn fits(&self) -> bool {
        (self.major, self.minor).fits()
    }
}

/// Which layouts are asked back, a union by the kind, `layoutrecall4`.
#[derive(Clone, Copy, Debug, PartialEq, Eq)]
pub enum LayoutRecall<'a> {
    /// One of a file.
    File(LayoutRecallFile<'a>),
    /// All of a file system.
    Fsid(Fsid4),
    /// All of the client.
    All,
}

impl<'a> Message for LayoutRecall<'a> {
    ghost form = { layoutrecall4 };

    ghost meaning = { layoutrecall4_value };

    ghost sound = { refl };
}

impl<'a> Wire<'a> for LayoutRecall<'a> {
    fn read(cursor: &mut Cursor<'a>) -> Result<LayoutRecall<'a>, XdrError> {
        let mut fork = cursor.fork();
        let kind = match fork.number32()? {
            1 => LayoutRecall::File(Wire::read(&mut fork)?),
            2 => LayoutRecall::Fsid(Wire::read(&mut fork)?),
            3 => LayoutRecall::All,
            _ => return Err(XdrError::not_enum(cursor.place())),
        };
        *cursor = fork;
        Ok(kind)
    }

    fn put(&self, out: &mut Out) -> Result<(), NoMemory> {
        match self {
            LayoutRecall::File(body) => (1u32, *body).put(out),
            LayoutRecall::Fsid(body) => (2u32, *body).put(out),
            LayoutRecall::All => 3u32.put(out),
        }
    }

    fn fits(&self) -> bool {
        match self {
            LayoutRecall::File(body) => body.fits(),
            LayoutRecall::Fsid(body) => body.fits(),
            LayoutRecall::All => true,
        }
    }
}

/// The arguments, `CB_LAYOUTRECALL4args`.
#[derive(Clone, Copy, Debug, PartialEq, Eq)]
pub struct CbLayoutRecallArgs<'a> {
    /// 4 for flexible files (RFC 8435).
    pub layout_type: u32,
    /// 1 for reading, 2 for reading and writing, 3 for any.
    pub iomode: u32,
    /// What is written behind the recall is to go through the metadata server.
    pub changed: bool,
    pub kind: LayoutRecall<'a>,
}

impl<'a> Message for CbLayoutRecallArgs<'a> {
    ghost form = { cb_layoutrecall4_args };

    ghost meaning = { cb_layoutrecall4_args_value };

    ghost sound = { refl };
}

impl<'a> Wire<'a> for CbLayoutRecallArgs<'a> {
    fn read(cursor: &mut Cursor<'a>) -> Result<CbLayoutRecallArgs<'a>, XdrError> {
        let (layout_type, iomode, (changed, kind)) = Wire::read(cursor)?;
        Ok(CbLayoutRecallArgs {
            layout_type,
            iomode,
            changed,
            kind,
        })
    }

    fn put(&self, out: &mut Out) -> Result<(), NoMemory> {
        (self.layout_type, self.iomode, (self.changed, self.kind)).put(out)
    }

    fn fits(&self) -> bool {
        (self.layout_type, self.iomode, (self.changed, self.kind)).fits()
    }
}

/// The result, `CB_LAYOUTRECALL4res`.
pub type CbLayoutRecallRes = OpResult<()>;
