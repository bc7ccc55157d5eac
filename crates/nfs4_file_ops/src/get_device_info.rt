//! GETDEVICEINFO: the address of a device (RFC 8881, section 18.40).

ghost use Rattle.std.specs.Prelude.{refl};
ghost use Rattle.nfs4_file_ops.specs.GetDeviceInfo.{getdeviceinfo4_res, getdeviceinfo4_res_value, getdeviceinfo4_args, getdeviceinfo4_args_value, getdeviceinfo4_ok, getdeviceinfo4_ok_value};

use ff_xdr::{Cursor, Message, NoMemory, Out, Wire, XdrError};
use nfs4_types::{Bitmap, DeviceId, OpaqueBody, Refusal4, Stat4};

/// The arguments, `GETDEVICEINFO4args`.
#[derive(Clone, Copy, Debug)]
pub struct GetDeviceInfoArgs<'a> {
    pub device: DeviceId,
    /// 4 for flexible files (RFC 8435).
    pub layout_type: u32,
    /// The most bytes in the result; 0 for none of the address.
    pub maxcount: u32,
    pub notify_types: Bitmap<'a>,
}

impl<'a> Message for GetDeviceInfoArgs<'a> {
    ghost form = { getdeviceinfo4_args };

    ghost meaning = { getdeviceinfo4_args_value };

    ghost sound = { refl };
}

impl<'a> Wire<'a> for GetDeviceInfoArgs<'a> {
    fn read(cursor: &mut Cursor<'a>) -> Result<GetDeviceInfoArgs<'a>, XdrError> {
        let (device, layout_type, (maxcount, notify_types)) = Wire::read(cursor)?;
        Ok(GetDeviceInfoArgs {
            device,
            layout_type,
            maxcount,
            notify_types,
        })
    }

    fn put(&self, out: &mut Out) -> Result<(), NoMemory> {
        (
            self.device,
            self.layout_type,
            (self.maxcount, self.notify_types),
        )
            .put(out)
    }

    fn fits(&self) -> bool {
        (
            self.device,
            self.layout_type,
            (self.maxcount, self.notify_types),
        )
            .fits()
    }
}

/// The result of a GETDEVICEINFO that was done, `GETDEVICEINFO4resok`.
#[derive(Clone, Copy, Debug)]
pub struct GetDeviceInfoOk<'a> {
    pub layout_type: u32,
    /// The address, in a form of the layout type's own.
    pub body: OpaqueBody<'a>,
    pub notification: Bitmap<'a>,
}

impl<'a> Message for GetDeviceInfoOk<'a> {
    ghost form = { getdeviceinfo4_ok };

    ghost meaning = { getdeviceinfo4_ok_value };

    ghost sound = { refl };
}

impl<'a> Wire<'a> for GetDeviceInfoOk<'a> {
    fn read(cursor: &mut Cursor<'a>) -> Result<GetDeviceInfoOk<'a>, XdrError> {
        let (layout_type, body, notification) = Wire::read(cursor)?;
        Ok(GetDeviceInfoOk {
            layout_type,
            body,
            notification,
        })
    }

    fn put(&self, out: &mut Out) -> Result<(), NoMemory> {
        (self.layout_type, self.body, self.notification).put(out)
    }

    fn fits(&self) -> bool {
        (self.layout_type, self.body, self.notification).fits()
    }
}

/// The result, a union by its status, `GETDEVICEINFO4res`.
#[derive(Clone, Copy, Debug)]
pub enum GetDeviceInfoRes<'a> {
    Done(GetDeviceInfoOk<'a>),
    /// NFS4ERR_TOOSMALL, and the maxcount that would do.
    TooSmall(u32),
    /// Any other status but OK.
    Refused(Stat4),
}

impl<'a> Message for GetDeviceInfoRes<'a> {
    ghost form = { getdeviceinfo4_res };

    ghost meaning = { getdeviceinfo4_res_value };

    ghost sound = { refl };
}

impl<'a> Wire<'a> for GetDeviceInfoRes<'a> {
    fn read(cursor: &mut Cursor<'a>) -> Result<GetDeviceInfoRes<'a>, XdrError> {
        let mut fork = cursor.fork();
        let result = match fork.number32()? {
            0 => GetDeviceInfoRes::Done(Wire::read(&mut fork)?),
            10005 => GetDeviceInfoRes::TooSmall(fork.number32()?),
            _ => {
                let refusal = Refusal4::read(cursor)?;
                return Ok(GetDeviceInfoRes::Refused(refusal.status));
            }
        };
        *cursor = fork;
        Ok(result)
    }

    fn put(&self, out: &mut Out) -> Result<(), NoMemory> {
        match self {
            GetDeviceInfoRes::Done(done) => (0u32, *done).put(out),
            GetDeviceInfoRes::TooSmall(mincount) => (10005u32, *mincount).put(out),
            GetDeviceInfoRes::Refused(status) => Refusal4 { status: *status }.put(out),
        }
    }

    fn fits(&self) -> bool {
        match self {
            GetDeviceInfoRes::Done(done) => done.fits(),
            GetDeviceInfoRes::TooSmall(mincount) => mincount.fits(),
            GetDeviceInfoRes::Refused(status) => *status != Stat4::Ok && *status != Stat4::TooSmall,
        }
    }
}
