//! The attributes that a call sets (RFC 1813, section 2.5).

ghost use Rattle.std.specs.Prelude.{refl};
ghost use Rattle.nfs3_wire.specs.Sattr.{set_time, set_time_value, sattr3, sattr3_value};

use crate::attributes::Time3;
use ff_xdr::{Cursor, Message, NoMemory, Out, Wire, XdrError};

/// What becomes of a time in a SETATTR or a CREATE, `set_atime` and `set_mtime`.
#[derive(Clone, Copy, Debug, PartialEq, Eq)]
pub enum SetTime {
    Keep,
    Server,
    Client(Time3),
}

impl Message for SetTime {
    ghost form = { set_time };

    ghost meaning = { set_time_value };

    ghost sound = { refl };
}

impl<'a> Wire<'a> for SetTime {
    fn read(cursor: &mut Cursor<'a>) -> Result<SetTime, XdrError> {
        let mut fork = cursor.fork();
        let set = match fork.number32()? {
            0 => SetTime::Keep,
            1 => SetTime::Server,
            2 => SetTime::Client(Time3::read(&mut fork)?),
            _ => return Err(XdrError::not_enum(cursor.place())),
        };
        *cursor = fork;
        Ok(set)
    }

    fn put(&self, out: &mut Out) -> Result<(), NoMemory> {
        match self {
            SetTime::Keep => (0u32, ()).put(out),
            SetTime::Server => (1u32, ()).put(out),
            SetTime::Client(time) => (2u32, *time).put(out),
        }
    }

    fn fits(&self) -> bool {
        match self {
            SetTime::Keep => true,
            SetTime::Server => true,
            SetTime::Client(time) => time.fits(),
        }
    }
}

/// The attributes that are to be set, `sattr3`.
#[derive(Clone, Copy, Debug, PartialEq, Eq)]
pub struct Sattr3 {
    pub mode: Option<u32>,
    pub uid: Option<u32>,
    pub gid: Option<u32>,
    /// In bytes.
    pub size: Option<u64>,
    pub atime: SetTime,
    pub mtime: SetTime,
}

impl Message for Sattr3 {
    ghost form = { sattr3 };

    ghost meaning = { sattr3_value };

    ghost sound = { refl };
}

impl<'a> Wire<'a> for Sattr3 {
    fn read(cursor: &mut Cursor<'a>) -> Result<Sattr3, XdrError> {
        let (mode, uid, (gid, size, (atime, mtime))) = <(
            Option<u32>,
            Option<u32>,
            (Option<u32>, Option<u64>, (SetTime, SetTime)),
        )>::read(cursor)?;
        Ok(Sattr3 {
            mode,
            uid,
            gid,
            size,
            atime,
            mtime,
        })
    }

    fn put(&self, out: &mut Out) -> Result<(), NoMemory> {
        (
            self.mode,
            self.uid,
            (self.gid, self.size, (self.atime, self.mtime)),
        )
            .put(out)
    }

    fn fits(&self) -> bool {
        (
            self.mode,
            self.uid,
            (self.gid, self.size, (self.atime, self.mtime)),
        )
            .fits()
    }
}
