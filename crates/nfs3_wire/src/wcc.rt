//! Weak cache consistency: what an object was before an operation, and what it is after it (RFC 1813,
//! section 2.5).

ghost use Rattle.std.specs.Prelude.{refl};
ghost use Rattle.nfs3_wire.specs.Wcc.{wcc_attr, wcc_attr_value, wcc_data, wcc_data_value};

use crate::attributes::{Fattr3, Time3};
use ff_xdr::{Cursor, Message, NoMemory, Out, Wire, XdrError};

/// The attributes of an object before an operation, as far as they tell whether it changed,
/// `wcc_attr`.
#[derive(Clone, Copy, Debug, PartialEq, Eq)]
pub struct WccAttr {
    /// In bytes.
    pub size: u64,
    pub mtime: Time3,
    pub ctime: Time3,
}

impl Message for WccAttr {
    ghost form = { wcc_attr };

    ghost meaning = { wcc_attr_value };

    ghost sound = { refl };
}

impl<'a> Wire<'a> for WccAttr {
    fn read(cursor: &mut Cursor<'a>) -> Result<WccAttr, XdrError> {
        let (size, mtime, ctime) = <(u64, Time3, Time3)>::read(cursor)?;
        Ok(WccAttr { size, mtime, ctime })
    }

    fn put(&self, out: &mut Out) -> Result<(), NoMemory> {
        (self.size, self.mtime, self.ctime).put(out)
    }

    fn fits(&self) -> bool {
        (self.size, self.mtime, self.ctime).fits()
    }
}

/// The attributes of an object before an operation and after it, each where it is known, `wcc_data`.
#[derive(Clone, Copy, Debug, PartialEq, Eq)]
pub struct WccData {
    pub before: Option<WccAttr>,
    pub after: Option<Fattr3>,
}

impl Message for WccData {
    ghost form = { wcc_data };

    ghost meaning = { wcc_data_value };

    ghost sound = { refl };
}

impl<'a> Wire<'a> for WccData {
    fn read(cursor: &mut Cursor<'a>) -> Result<WccData, XdrError> {
        let (before, after) = <(Option<WccAttr>, Option<Fattr3>)>::read(cursor)?;
        Ok(WccData { before, after })
    }

    fn put(&self, out: &mut Out) -> Result<(), NoMemory> {
        (self.before, self.after).put(out)
    }

    fn fits(&self) -> bool {
        (self.before, self.after).fits()
    }
}
