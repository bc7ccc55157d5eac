//! SETATTR: set attributes of an object (RFC 1813, section 3.3.2).

ghost use Rattle.std.specs.Prelude.{refl};
ghost use Rattle.nfs3_wire.specs.Setattr.{setattr_args, setattr_args_value};

use crate::{Handle, Outcome, Sattr3, Time3, WccData};
use ff_xdr::{Cursor, Message, NoMemory, Out, Wire, XdrError};

/// The arguments, `SETATTR3args`.
#[derive(Clone, Copy, Debug, PartialEq, Eq)]
pub struct SetAttrArgs<'a> {
    /// The object's handle, at most 64 bytes.
    pub file: &'a [u8],
    /// Its new attributes.
    pub attributes: Sattr3,
    /// The ctime that the object must have, where it is checked (`sattrguard3`).
    pub guard: Option<Time3>,
}

impl<'a> Message for SetAttrArgs<'a> {
    ghost form = { setattr_args };

    ghost meaning = { setattr_args_value };

    ghost sound = { refl };
}

impl<'a> Wire<'a> for SetAttrArgs<'a> {
    fn read(cursor: &mut Cursor<'a>) -> Result<SetAttrArgs<'a>, XdrError> {
        let (file, attributes, guard) = <(Handle<'a>, Sattr3, Option<Time3>)>::read(cursor)?;
        Ok(SetAttrArgs {
            file: file.bytes,
            attributes,
            guard,
        })
    }

    fn put(&self, out: &mut Out) -> Result<(), NoMemory> {
        (Handle { bytes: self.file }, self.attributes, self.guard).put(out)
    }

    fn fits(&self) -> bool {
        (Handle { bytes: self.file }, self.attributes, self.guard).fits()
    }
}

/// The result: the attributes of the object before and after, whatever the status (`SETATTR3res`).
pub type SetAttrReply = Outcome<WccData, WccData>;
