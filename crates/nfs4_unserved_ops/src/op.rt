//! The operations of which the forms are read and which are not carried out (RFC 8881, section 18).

ghost use Rattle.std.specs.Prelude.{◌≡◌, refl};
ghost use Rattle.ff_xdr.specs.Form.{arm_of};
ghost use Rattle.nfs4_unserved_ops.specs.Args.{unserved_argop4, unserved_op_value};

use crate::{
    AccessArgs, FreeStateidArgs, OpenDowngradeArgs, ReadDirArgs, SecInfoStyle, SetAttrArgs,
    TestStateidArgs,
};
use ff_xdr::{Cursor, Message, NoMemory, Out, Wire, XdrError};

/// An operation of a compound that is read and not carried out, with its arguments. Any other number is refused as `NotEnum`.
#[derive(Clone, Copy, Debug)]
pub enum UnservedOp<'a> {
    /// RFC 8881, section 18.1.
    Access(AccessArgs),
    /// RFC 8881, section 18.18.
    OpenDowngrade(OpenDowngradeArgs),
    /// RFC 8881, section 18.23.
    ReadDir(ReadDirArgs<'a>),
    /// RFC 8881, section 18.27. It has no arguments.
    RestoreFh,
    /// RFC 8881, section 18.28. It has no arguments.
    SaveFh,
    /// RFC 8881, section 18.30.
    SetAttr(SetAttrArgs<'a>),
    /// RFC 8881, section 18.38.
    FreeStateid(FreeStateidArgs),
    /// RFC 8881, section 18.45.
    SecInfoNoName(SecInfoStyle),
    /// RFC 8881, section 18.48.
    TestStateid(TestStateidArgs<'a>),
}

impl<'a> UnservedOp<'a> {
    /// The number.
    pub fn number(&self) -> u32
        ensures { result ≡ arm_of unserved_argop4 (unserved_op_value self.now) }
    {
        match self {
            UnservedOp::Access(_) => 3,
            UnservedOp::OpenDowngrade(_) => 21,
            UnservedOp::ReadDir(_) => 26,
            UnservedOp::RestoreFh => 31,
            UnservedOp::SaveFh => 32,
            UnservedOp::SetAttr(_) => 34,
            UnservedOp::FreeStateid(_) => 45,
            UnservedOp::SecInfoNoName(_) => 52,
            UnservedOp::TestStateid(_) => 55,
        }
    }
}

impl<'a> Message for UnservedOp<'a> {
    ghost form = { unserved_argop4 };

    ghost meaning = { unserved_op_value };

    ghost sound = { refl };
}

impl<'a> Wire<'a> for UnservedOp<'a> {
    fn read(cursor: &mut Cursor<'a>) -> Result<UnservedOp<'a>, XdrError> {
        let mut fork = cursor.fork();
        let op = match fork.number32()? {
            3 => UnservedOp::Access(Wire::read(&mut fork)?),
            21 => UnservedOp::OpenDowngrade(Wire::read(&mut fork)?),
            26 => UnservedOp::ReadDir(Wire::read(&mut fork)?),
            31 => UnservedOp::RestoreFh,
            32 => UnservedOp::SaveFh,
            34 => UnservedOp::SetAttr(Wire::read(&mut fork)?),
            45 => UnservedOp::FreeStateid(Wire::read(&mut fork)?),
            52 => UnservedOp::SecInfoNoName(Wire::read(&mut fork)?),
            55 => UnservedOp::TestStateid(Wire::read(&mut fork)?),
            _ => return Err(XdrError::not_enum(cursor.place())),
        };
        *cursor = fork;
        Ok(op)
    }

    fn put(&self, out: &mut Out) -> Result<(), NoMemory> {
        match self {
            UnservedOp::Access(args) => (3u32, *args).put(out),
            UnservedOp::OpenDowngrade(args) => (21u32, *args).put(out),
            UnservedOp::ReadDir(args) => (26u32, *args).put(out),
            UnservedOp::RestoreFh => 31u32.put(out),
            UnservedOp::SaveFh => 32u32.put(out),
            UnservedOp::SetAttr(args) => (34u32, *args).put(out),
            UnservedOp::FreeStateid(args) => (45u32, *args).put(out),
            UnservedOp::SecInfoNoName(args) => (52u32, *args).put(out),
            UnservedOp::TestStateid(args) => (55u32, *args).put(out),
        }
    }

    fn fits(&self) -> bool {
        match self {
            UnservedOp::Access(args) => args.fits(),
            UnservedOp::OpenDowngrade(args) => args.fits(),
            UnservedOp::ReadDir(args) => args.fits(),
            UnservedOp::RestoreFh => true,
            UnservedOp::SaveFh => true,
            UnservedOp::SetAttr(args) => args.fits(),
            UnservedOp::FreeStateid(args) => args.fits(),
            UnservedOp::SecInfoNoName(args) => args.fits(),
            UnservedOp::TestStateid(args) => args.fits(),
        }
    }
}
