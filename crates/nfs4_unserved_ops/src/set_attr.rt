//! SETATTR: set attributes (RFC 8881, section 18.30).

ghost use Rattle.std.specs.Prelude.{refl};
ghost use Rattle.nfs4_unserved_ops.specs.SetAttr.{setattr4_args, setattr4_args_value, setattr4_res, setattr4_res_value};

use ff_xdr::{Cursor, Message, NoMemory, Out, Wire, XdrError};
use nfs4_file_ops::Fattr4;
use nfs4_types::{Bitmap, Stat4, Stateid};

/// The arguments, `SETATTR4args`.
#[derive(Clone, Copy, Debug)]
pub struct SetAttrArgs<'a> {
    /// Of an open, where a size is set.
    pub stateid: Stateid,
    /// What is set, and to what.
    pub attributes: Fattr4<'a>,
}

impl<'a> Message for SetAttrArgs<'a> {
    ghost form = { setattr4_args };

    ghost meaning = { setattr4_args_value };

    ghost sound = { refl };
}

impl<'a> Wire<'a> for SetAttrArgs<'a> {
    fn read(cursor: &mut Cursor<'a>) -> Result<SetAttrArgs<'a>, XdrError> {
        let (stateid, attributes) = Wire::read(cursor)?;
        Ok(SetAttrArgs {
            stateid,
            attributes,
        })
    }

    fn put(&self, out: &mut Out) -> Result<(), NoMemory> {
        (self.stateid, self.attributes).put(out)
    }

    fn fits(&self) -> bool {
        (self.stateid, self.attributes).fits()
    }
}

/// The result, `SETATTR4res`, which says in every status what was set.
#[derive(Clone, Copy, Debug)]
pub struct SetAttrRes<'a> {
    pub status: Stat4,
    /// The attributes that were set.
    pub set: Bitmap<'a>,
}

impl<'a> Message for SetAttrRes<'a> {
    ghost form = { setattr4_res };

    ghost meaning = { setattr4_res_value };

    ghost sound = { refl };
}

impl<'a> Wire<'a> for SetAttrRes<'a> {
    fn read(cursor: &mut Cursor<'a>) -> Result<SetAttrRes<'a>, XdrError> {
        let (status, set) = Wire::read(cursor)?;
        Ok(SetAttrRes { status, set })
    }

    fn put(&self, out: &mut Out) -> Result<(), NoMemory> {
        (self.status, self.set).put(out)
    }

    fn fits(&self) -> bool {
        (self.status, self.set).fits()
    }
}
