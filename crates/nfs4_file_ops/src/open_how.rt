//! Whether an OPEN creates its file (RFC 8881, section 18.16).

ghost use Rattle.std.specs.Prelude.{refl};
ghost use Rattle.nfs4_file_ops.specs.OpenHow.{createhow4, createhow4_value, openflag4, openflag4_value};

use crate::Fattr4;
use ff_xdr::{Cursor, Message, NoMemory, Out, Wire, XdrError};

/// How an OPEN creates its file, a union by the mode, `createhow4`. EXCLUSIVE4 and EXCLUSIVE4_1 are not
/// built.
#[derive(Clone, Copy, Debug)]
pub enum CreateHow4<'a> {
    /// Whether or not there is a file of this name.
    Unchecked(Fattr4<'a>),
    /// Only where there is none.
    Guarded(Fattr4<'a>),
}

impl<'a> Message for CreateHow4<'a> {
    ghost form = { createhow4 };

    ghost meaning = { createhow4_value };

    ghost sound = { refl };
}

impl<'a> Wire<'a> for CreateHow4<'a> {
    fn read(cursor: &mut Cursor<'a>) -> Result<CreateHow4<'a>, XdrError> {
        let mut fork = cursor.fork();
        let how = match fork.number32()? {
            0 => CreateHow4::Unchecked(Wire::read(&mut fork)?),
            1 => CreateHow4::Guarded(Wire::read(&mut fork)?),
            _ => return Err(XdrError::not_enum(cursor.place())),
        };
        *cursor = fork;
        Ok(how)
    }

    fn put(&self, out: &mut Out) -> Result<(), NoMemory> {
        match self {
            CreateHow4::Unchecked(body) => (0u32, *body).put(out),
            CreateHow4::Guarded(body) => (1u32, *body).put(out),
        }
    }

    fn fits(&self) -> bool {
        match self {
            CreateHow4::Unchecked(body) => body.fits(),
            CreateHow4::Guarded(body) => body.fits(),
        }
    }
}

/// Whether an OPEN creates its file, a union by the opentype, `openflag4`.
#[derive(Clone, Copy, Debug)]
pub enum OpenHow<'a> {
    /// OPEN4_NOCREATE.
    NoCreate,
    /// OPEN4_CREATE.
    Create(CreateHow4<'a>),
}

impl<'a> Message for OpenHow<'a> {
    ghost form = { openflag4 };

    ghost meaning = { openflag4_value };

    ghost sound = { refl };
}

impl<'a> Wire<'a> for OpenHow<'a> {
    fn read(cursor: &mut Cursor<'a>) -> Result<OpenHow<'a>, XdrError> {
        let mut fork = cursor.fork();
        let how = match fork.number32()? {
            0 => OpenHow::NoCreate,
            1 => OpenHow::Create(Wire::read(&mut fork)?),
            _ => return Err(XdrError::not_enum(cursor.place())),
        };
        *cursor = fork;
        Ok(how)
    }

    fn put(&self, out: &mut Out) -> Result<(), NoMemory> {
        match self {
            OpenHow::NoCreate => 0u32.put(out),
            OpenHow::Create(body) => (1u32, *body).put(out),
        }
    }

    fn fits(&self) -> bool {
        match self {
            OpenHow::NoCreate => true,
            OpenHow::Create(body) => body.fits(),
        }
    }
}
