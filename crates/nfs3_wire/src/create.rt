//! CREATE: create a file (RFC 1813, section 3.3.8).

ghost use Rattle.std.specs.Prelude.{refl};
ghost use Rattle.nfs3_wire.specs.Create.{createhow3, create_how_value, create_args, create_args_value, create_ok, create_ok_value};

use crate::{Fattr3, Handle, Name, Outcome, Sattr3, WccData};
use ff_xdr::{Cursor, Message, NoMemory, Out, Wire, XdrError};

/// How a CREATE makes its file, `createhow3`.
#[derive(Clone, Copy, Debug, PartialEq, Eq)]
pub enum CreateHow {
    /// Whether or not there is a file of this name.
    Unchecked(Sattr3),
    /// Only where there is none.
    Guarded(Sattr3),
    /// Only where there is none, or one that was created with the same verifier: the eight bytes of a
    /// `createverf3`, as one number.
    Exclusive(u64),
}

impl Message for CreateHow {
    ghost form = { createhow3 };

    ghost meaning = { create_how_value };

    ghost sound = { refl };
}

impl<'a> Wire<'a> for CreateHow {
    fn read(cursor: &mut Cursor<'a>) -> Result<CreateHow, XdrError> {
        let mut fork = cursor.fork();
        let how = match fork.number32()? {
            0 => CreateHow::Unchecked(Sattr3::read(&mut fork)?),
            1 => CreateHow::Guarded(Sattr3::read(&mut fork)?),
            2 => CreateHow::Exclusive(fork.number64()?),
            _ => return Err(XdrError::not_enum(cursor.place())),
        };
        *cursor = fork;
        Ok(how)
    }

    fn put(&self, out: &mut Out) -> Result<(), NoMemory> {
        match self {
            CreateHow::Unchecked(attributes) => (0u32, *attributes).put(out),
            CreateHow::Guarded(attributes) => (1u32, *attributes).put(out),
            CreateHow::Exclusive(verifier) => (2u32, *verifier).put(out),
        }
    }

    fn fits(&self) -> bool {
        match self {
            CreateHow::Unchecked(attributes) => attributes.fits(),
            CreateHow::Guarded(attributes) => attributes.fits(),
            CreateHow::Exclusive(verifier) => verifier.fits(),
        }
    }
}

/// The arguments, `CREATE3args`.
#[derive(Clone, Copy, Debug, PartialEq, Eq)]
pub struct CreateArgs<'a> {
    /// The directory's handle, at most 64 bytes.
    pub directory: &'a [u8],
    /// The file's name, of any length.
    pub name: &'a [u8],
    /// How it is made.
    pub how: CreateHow,
}

impl<'a> Message for CreateArgs<'a> {
    ghost form = { create_args };

    ghost meaning = { create_args_value };

    ghost sound = { refl };
}

impl<'a> Wire<'a> for CreateArgs<'a> {
    fn read(cursor: &mut Cursor<'a>) -> Result<CreateArgs<'a>, XdrError> {
        let (directory, name, how) = <(Handle<'a>, Name<'a>, CreateHow)>::read(cursor)?;
        Ok(CreateArgs {
            directory: directory.bytes,
            name: name.bytes,
            how,
        })
    }

    fn put(&self, out: &mut Out) -> Result<(), NoMemory> {
        (
            Handle {
                bytes: self.directory,
            },
            Name { bytes: self.name },
            self.how,
        )
            .put(out)
    }

    fn fits(&self) -> bool {
        (
            Handle {
                bytes: self.directory,
            },
            Name { bytes: self.name },
            self.how,
        )
            .fits()
    }
}

/// The result of a CREATE that was done, `CREATE3resok`.
#[derive(Clone, Copy, Debug, PartialEq, Eq)]
pub struct CreateOk<'a> {
    /// The handle of the file, at most 64 bytes, where it is known.
    pub file: Option<&'a [u8]>,
    /// The attributes of the file.
    pub attributes: Option<Fattr3>,
    /// The attributes of the directory before and after.
    pub wcc: WccData,
}

impl<'a> Message for CreateOk<'a> {
    ghost form = { create_ok };

    ghost meaning = { create_ok_value };

    ghost sound = { refl };
}

impl<'a> Wire<'a> for CreateOk<'a> {
    fn read(cursor: &mut Cursor<'a>) -> Result<CreateOk<'a>, XdrError> {
        let (file, attributes, wcc) = <(Option<Handle<'a>>, Option<Fattr3>, WccData)>::read(
            cursor,
        )?;
        let file = match file {
            None => None,
            Some(handle) => Some(handle.bytes),
        };
        Ok(CreateOk {
            file,
            attributes,
            wcc,
        })
    }

    fn put(&self, out: &mut Out) -> Result<(), NoMemory> {
        (
            match self.file {
                None => None,
                Some(bytes) => Some(Handle { bytes }),
            },
            self.attributes,
            self.wcc,
        )
            .put(out)
    }

    fn fits(&self) -> bool {
        (
            match self.file {
                None => None,
                Some(bytes) => Some(Handle { bytes }),
            },
            self.attributes,
            self.wcc,
        )
            .fits()
    }
}

/// The result: of a refusal the attributes of the directory before and after (`CREATE3res`).
pub type CreateReply<'a> = Outcome<CreateOk<'a>, WccData>;
