//! LOOKUP: look up a name in a directory (RFC 1813, section 3.3.3).

ghost use Rattle.std.specs.Prelude.{refl};
ghost use Rattle.nfs3_wire.specs.Lookup.{lookup_args, lookup_args_value, lookup_ok, lookup_ok_value};

use crate::{Fattr3, Handle, Name, Outcome};
use ff_xdr::{Cursor, Message, NoMemory, Out, Wire, XdrError};

/// The arguments, `LOOKUP3args`.
#[derive(Clone, Copy, Debug, PartialEq, Eq)]
pub struct LookupArgs<'a> {
    /// The directory's handle, at most 64 bytes.
    pub directory: &'a [u8],
    /// The name, of any length.
    pub name: &'a [u8],
}

impl<'a> Message for LookupArgs<'a> {
    ghost form = { lookup_args };

    ghost meaning = { lookup_args_value };

    ghost sound = { refl };
}

impl<'a> Wire<'a> for LookupArgs<'a> {
    fn read(cursor: &mut Cursor<'a>) -> Result<LookupArgs<'a>, XdrError> {
        let (directory, name) = <(Handle<'a>, Name<'a>)>::read(cursor)?;
        Ok(LookupArgs {
            directory: directory.bytes,
            name: name.bytes,
        })
    }

    fn put(&self, out: &mut Out) -> Result<(), NoMemory> {
        (
            Handle {
                bytes: self.directory,
            },
            Name { bytes: self.name },
        )
            .put(out)
    }

    fn fits(&self) -> bool {
        (
            Handle {
                bytes: self.directory,
            },
            Name { bytes: self.name },
        )
            .fits()
    }
}

/// The result of a LOOKUP that was done, `LOOKUP3resok`.
#[derive(Clone, Copy, Debug, PartialEq, Eq)]
pub struct LookupOk<'a> {
    /// The handle of the object that was found, at most 64 bytes.
    pub file: &'a [u8],
    /// The attributes of the object.
    pub attributes: Option<Fattr3>,
    /// The attributes of the directory.
    pub directory: Option<Fattr3>,
}

impl<'a> Message for LookupOk<'a> {
    ghost form = { lookup_ok };

    ghost meaning = { lookup_ok_value };

    ghost sound = { refl };
}

impl<'a> Wire<'a> for LookupOk<'a> {
    fn read(cursor: &mut Cursor<'a>) -> Result<LookupOk<'a>, XdrError> {
        let (file, attributes, directory) = <(Handle<'a>, Option<Fattr3>, Option<Fattr3>)>::read(
            cursor,
        )?;
        Ok(LookupOk {
            file: file.bytes,
            attributes,
            directory,
        })
    }

    fn put(&self, out: &mut Out) -> Result<(), NoMemory> {
        (Handle { bytes: self.file }, self.attributes, self.directory).put(out)
    }

    fn fits(&self) -> bool {
        (Handle { bytes: self.file }, self.attributes, self.directory).fits()
    }
}

/// The result: of a refusal the attributes of the directory (`LOOKUP3res`).
pub type LookupReply<'a> = Outcome<LookupOk<'a>, Option<Fattr3>>;
