//! FSINFO: get what a file system can do (RFC 1813, section 3.3.19).

ghost use Rattle.std.specs.Prelude.{refl};
ghost use Rattle.nfs3_wire.specs.Fsinfo.{fsinfo_args, fsinfo_args_value, fsinfo_ok, fsinfo_ok_value};

use crate::{Fattr3, Handle, Outcome, Time3};
use ff_xdr::{Cursor, Message, NoMemory, Out, Wire, XdrError};

/// The arguments, `FSINFO3args`.
#[derive(Clone, Copy, Debug, PartialEq, Eq)]
pub struct FsInfoArgs<'a> {
    /// The root's handle, at most 64 bytes.
    pub root: &'a [u8],
}

impl<'a> Message for FsInfoArgs<'a> {
    ghost form = { fsinfo_args };

    ghost meaning = { fsinfo_args_value };

    ghost sound = { refl };
}

impl<'a> Wire<'a> for FsInfoArgs<'a> {
    fn read(cursor: &mut Cursor<'a>) -> Result<FsInfoArgs<'a>, XdrError> {
        let parts = <Handle<'a>>::read(cursor)?;
        Ok(FsInfoArgs { root: parts.bytes })
    }

    fn put(&self, out: &mut Out) -> Result<(), NoMemory> {
        Handle { bytes: self.root }.put(out)
    }

    fn fits(&self) -> bool {
        Handle { bytes: self.root }.fits()
    }
}

/// The result of an FSINFO that was done, `FSINFO3resok`. The sizes are in bytes.
#[derive(Clone, Copy, Debug, PartialEq, Eq)]
pub struct FsInfoOk {
    /// The attributes of the root.
    pub attributes: Option<Fattr3>,
    /// The most data in one READ.
    pub rtmax: u32,
    /// The size of a READ that serves best.
    pub rtpref: u32,
    /// The size of a READ should be a multiple of this.
    pub rtmult: u32,
    /// The most data in one WRITE.
    pub wtmax: u32,
    /// The size of a WRITE that serves best.
    pub wtpref: u32,
    /// The size of a WRITE should be a multiple of this.
    pub wtmult: u32,
    /// The size of a READDIR that serves best.
    pub dtpref: u32,
    /// The longest file.
    pub maxfilesize: u64,
    /// Times are kept to a multiple of this.
    pub time_delta: Time3,
    /// What the file system has, a sum: hard links 1, symbolic links 2, one answer of PATHCONF for all
    /// objects 8, times that SETATTR can set 16.
    pub properties: u32,
}

/// The sizes of READ and of WRITE.
type Sizes = ((u32, u32, u32), (u32, u32, u32));

/// What stands behind them.
type Limits = (u32, u64, (Time3, u32));

impl Message for FsInfoOk {
    ghost form = { fsinfo_ok };

    ghost meaning = { fsinfo_ok_value };

    ghost sound = { refl };
}

impl<'a> Wire<'a> for FsInfoOk {
    fn read(cursor: &mut Cursor<'a>) -> Result<FsInfoOk, XdrError> {
        let (attributes, (reads, writes), limits) = <(Option<Fattr3>, Sizes, Limits)>::read(
            cursor,
        )?;
        let (rtmax, rtpref, rtmult) = reads;
        let (wtmax, wtpref, wtmult) = writes;
        let (dtpref, maxfilesize, (time_delta, properties)) = limits;
        Ok(FsInfoOk {
            attributes,
            rtmax,
            rtpref,
            rtmult,
            wtmax,
            wtpref,
            wtmult,
            dtpref,
            maxfilesize,
            time_delta,
            properties,
        })
    }

    fn put(&self, out: &mut Out) -> Result<(), NoMemory> {
        (
            self.attributes,
            (
                (self.rtmax, self.rtpref, self.rtmult),
                (self.wtmax, self.wtpref, self.wtmult),
            ),
            (
                self.dtpref,
                self.maxfilesize,
                (self.time_delta, self.properties),
            ),
        )
            .put(out)
    }

    fn fits(&self) -> bool {
        (
            self.attributes,
            (
                (self.rtmax, self.rtpref, self.rtmult),
                (self.wtmax, self.wtpref, self.wtmult),
            ),
            (
                self.dtpref,
                self.maxfilesize,
                (self.time_delta, self.properties),
            ),
        )
            .fits()
    }
}

/// The result: of a refusal the attributes of the root (`FSINFO3res`).
pub type FsInfoReply = Outcome<FsInfoOk, Option<Fattr3>>;
