//! LAYOUTGET: get a layout (RFC 8881, section 18.43).

ghost use Rattle.std.specs.Prelude.{refl};
ghost use Rattle.nfs4_file_ops.specs.LayoutGet.{layoutget4_res, layoutget4_res_value, layoutget4_args, layoutget4_args_value, layoutget4_ok, layoutget4_ok_value};

use crate::Layout4;
use ff_xdr::{Array, Cursor, Message, NoMemory, Out, Wire, XdrError};
use nfs4_types::{Refusal4, Stat4, Stateid};

/// The arguments, `LAYOUTGET4args`.
#[derive(Clone, Copy, Debug, PartialEq, Eq)]
pub struct LayoutGetArgs {
    /// Word is wanted when a layout that is not to be had now is.
    pub signal: bool,
    pub layout_type: u32,
    /// 1 for reading, 2 for reading and writing.
    pub iomode: u32,
    /// From which byte on.
    pub offset: u64,
    pub length: u64,
    /// The least length.
    pub minlength: u64,
    /// Of an open or of a layout.
    pub stateid: Stateid,
    /// The most bytes in the result.
    pub maxcount: u32,
}

impl Message for LayoutGetArgs {
    ghost form = { layoutget4_args };

    ghost meaning = { layoutget4_args_value };

    ghost sound = { refl };
}

impl<'a> Wire<'a> for LayoutGetArgs {
    fn read(cursor: &mut Cursor<'a>) -> Result<LayoutGetArgs, XdrError> {
        let (signal, layout_type, (iomode, offset, (length, minlength, (stateid, maxcount)))) =
            Wire::read(cursor)?;
        Ok(LayoutGetArgs {
            signal,
            layout_type,
            iomode,
            offset,
            length,
            minlength,
            stateid,
            maxcount,
        })
    }

    fn put(&self, out: &mut Out) -> Result<(), NoMemory> {
        (
            self.signal,
            self.layout_type,
            (
                self.iomode,
                self.offset,
                (self.length, self.minlength, (self.stateid, self.maxcount)),
            ),
        )
            .put(out)
    }

    fn fits(&self) -> bool {
        (
            self.signal,
            self.layout_type,
            (
                self.iomode,
                self.offset,
                (self.length, self.minlength, (self.stateid, self.maxcount)),
            ),
        )
            .fits()
    }
}

/// The result of a LAYOUTGET that was done, `LAYOUTGET4resok`.
#[derive(Clone, Copy, Debug)]
pub struct LayoutGetOk<'a> {
    pub return_on_close: bool,
    pub stateid: Stateid,
    pub layouts: Array<'a, Layout4<'a>, { u32::MAX }>,
}

impl<'a> Message for LayoutGetOk<'a> {
    ghost form = { layoutget4_ok };

    ghost meaning = { layoutget4_ok_value };

    ghost sound = { refl };
}

impl<'a> Wire<'a> for LayoutGetOk<'a> {
    fn read(cursor: &mut Cursor<'a>) -> Result<LayoutGetOk<'a>, XdrError> {
        let (return_on_close, stateid, layouts) = Wire::read(cursor)?;
        Ok(LayoutGetOk {
            return_on_close,
            stateid,
            layouts,
        })
    }

    fn put(&self, out: &mut Out) -> Result<(), NoMemory> {
        (self.return_on_close, self.stateid, self.layouts).put(out)
    }

    fn fits(&self) -> bool {
        (self.return_on_close, self.stateid, self.layouts).fits()
    }
}

/// The result, a union by its status, `LAYOUTGET4res`.
#[derive(Clone, Copy, Debug)]
pub enum LayoutGetRes<'a> {
    Done(LayoutGetOk<'a>),
    /// NFS4ERR_LAYOUTTRYLATER, and whether word will come when the layout is to be had.
    TryLater(bool),
    /// Any other status but OK.
    Refused(Stat4),
}

impl<'a> Message for LayoutGetRes<'a> {
    ghost form = { layoutget4_res };

    ghost meaning = { layoutget4_res_value };

    ghost sound = { refl };
}

impl<'a> Wire<'a> for LayoutGetRes<'a> {
    fn read(cursor: &mut Cursor<'a>) -> Result<LayoutGetRes<'a>, XdrError> {
        let mut fork = cursor.fork();
        let result = match fork.number32()? {
            0 => LayoutGetRes::Done(Wire::read(&mut fork)?),
            10058 => LayoutGetRes::TryLater(fork.flag()?),
            _ => {
                let refusal = Refusal4::read(cursor)?;
                return Ok(LayoutGetRes::Refused(refusal.status));
            }
        };
        *cursor = fork;
        Ok(result)
    }

    fn put(&self, out: &mut Out) -> Result<(), NoMemory> {
        match self {
            LayoutGetRes::Done(done) => (0u32, *done).put(out),
            LayoutGetRes::TryLater(signal) => (10058u32, *signal).put(out),
            LayoutGetRes::Refused(status) => Refusal4 { status: *status }.put(out),
        }
    }

    fn fits(&self) -> bool {
        match self {
            LayoutGetRes::Done(done) => done.fits(),
            LayoutGetRes::TryLater(_) => true,
            LayoutGetRes::Refused(status) => {
                *status != Stat4::Ok && *status != Stat4::LayoutTryLater
            }
        }
    }
}
