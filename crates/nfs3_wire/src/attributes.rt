//! The attributes of an object (RFC 1813, section 2.5).

ghost use Rattle.std.specs.Prelude.{◌≡◌, refl};
ghost use Rattle.nfs3_wire.specs.Attributes.{nfstime3, time3_value, specdata3, specdata3_value, fattr3, fattr3_value};

use crate::file_type::FileType;
use ff_xdr::{Cursor, Message, NoMemory, Out, Wire, XdrError};

/// A moment, `nfstime3`.
#[derive(Clone, Copy, Debug, PartialEq, Eq)]
pub struct Time3 {
    pub seconds: u32,
    pub nanos: u32,
}

impl Message for Time3 {
    ghost form = { nfstime3 };

    ghost meaning = { time3_value };

    ghost sound = { refl };
}

impl<'a> Wire<'a> for Time3 {
    fn read(cursor: &mut Cursor<'a>) -> Result<Time3, XdrError> {
        let (seconds, nanos) = <(u32, u32)>::read(cursor)?;
        Ok(Time3 { seconds, nanos })
    }

    fn put(&self, out: &mut Out) -> Result<(), NoMemory> {
        (self.seconds, self.nanos).put(out)
    }

    fn fits(&self) -> bool {
        (self.seconds, self.nanos).fits()
    }
}

/// A device's two numbers, `specdata3`.
#[derive(Clone, Copy, Debug, PartialEq, Eq)]
pub struct Specdata3 {
    pub major: u32,
    pub minor: u32,
}

impl Message for Specdata3 {
    ghost form = { specdata3 };

    ghost meaning = { specdata3_value };

    ghost sound = { refl };
}

impl<'a> Wire<'a> for Specdata3 {
    fn read(cursor: &mut Cursor<'a>) -> Result<Specdata3, XdrError> {
        let (major, minor) = <(u32, u32)>::read(cursor)?;
        Ok(Specdata3 { major, minor })
    }

    fn put(&self, out: &mut Out) -> Result<(), NoMemory> {
        (self.major, self.minor).put(out)
    }

    fn fits(&self) -> bool {
        (self.major, self.minor).fits()
    }
}

/// The attributes of an object, `fattr3`.
#[derive(Clone, Copy, Debug, PartialEq, Eq)]
pub struct Fattr3 {
    pub kind: FileType,
    /// The permission bits.
    pub mode: u32,
    pub nlink: u32,
    pub uid: u32,
    pub gid: u32,
    /// In bytes.
    pub size: u64,
    /// The bytes of storage.
    pub used: u64,
    pub rdev: Specdata3,
    pub fsid: u64,
    pub fileid: u64,
    pub atime: Time3,
    pub mtime: Time3,
    pub ctime: Time3,
}

impl Message for Fattr3 {
    ghost form = { fattr3 };

    ghost meaning = { fattr3_value };

    ghost sound = { refl };
}

impl<'a> Wire<'a> for Fattr3 {
    fn read(cursor: &mut Cursor<'a>) -> Result<Fattr3, XdrError> {
        let (head, place, (atime, mtime, ctime)) = <(
            (FileType, u32, (u32, u32, u32)),
            (u64, u64, (Specdata3, u64, u64)),
            (Time3, Time3, Time3),
        )>::read(cursor)?;
        let (kind, mode, (nlink, uid, gid)) = head;
        let (size, used, (rdev, fsid, fileid)) = place;
        Ok(Fattr3 {
            kind,
            mode,
            nlink,
            uid,
            gid,
            size,
            used,
            rdev,
            fsid,
            fileid,
            atime,
            mtime,
            ctime,
        })
    }

    fn put(&self, out: &mut Out) -> Result<(), NoMemory> {
        (
            (self.kind, self.mode, (self.nlink, self.uid, self.gid)),
            (self.size, self.used, (self.rdev, self.fsid, self.fileid)),
            (self.atime, self.mtime, self.ctime),
        )
            .put(out)
    }

    fn fits(&self) -> bool {
        (
            (self.kind, self.mode, (self.nlink, self.uid, self.gid)),
            (self.size, self.used, (self.rdev, self.fsid, self.fileid)),
            (self.atime, self.mtime, self.ctime),
        )
            .fits()
    }
}
