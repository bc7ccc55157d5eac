//! The operations of a compound (RFC 8881, section 18).

ghost use Rattle.std.specs.Prelude.{◌≡◌, IsTrue, refl};
ghost use Rattle.ff_xdr.specs.Calls.{Decodes};
ghost use Rattle.ff_xdr.specs.Form.{arm_of, has_arm};
ghost use Rattle.ff_xdr.specs.Reading.{arm_reading};
ghost use Rattle.nfs4_compound.specs.Args.{argop4, op_value};

use crate::is_built_op;
use crate::operations::{fits_args, number_of, operations, put_args, read_args};
use ff_xdr::{Cursor, Message, NoMemory, Out, Wire, XdrError};
use nfs4_file_ops::{
    CloseArgs, Commit4Args, GetAttr4Args, GetDeviceInfoArgs, LayoutCommitArgs, LayoutGetArgs,
    LayoutReturnArgs, Lookup4Args, OpenArgs, PutFhArgs, Read4Args, Write4Args,
};
use nfs4_session_ops::{
    BindConnArgs, CreateSessionArgs, DestroyClientIdArgs, DestroySessionArgs, ExchangeIdArgs,
    ReclaimCompleteArgs,
};
use nfs4_types::Sequence;

/// An operation of a compound that is carried out, with its arguments (RFC 8881, section 16.2.3). Any other number is
/// refused as `NotEnum`.
#[derive(Clone, Copy, Debug)]
pub enum Op<'a> {
    /// RFC 8881, section 18.2.
    Close(CloseArgs),
    /// RFC 8881, section 18.3.
    Commit(Commit4Args),
    /// RFC 8881, section 18.7.
    GetAttr(GetAttr4Args<'a>),
    /// RFC 8881, section 18.8. It has no arguments.
    GetFh,
    /// RFC 8881, section 18.13.
    Lookup(Lookup4Args<'a>),
    /// RFC 8881, section 18.16.
    Open(OpenArgs<'a>),
    /// RFC 8881, section 18.19.
    PutFh(PutFhArgs<'a>),
    /// RFC 8881, section 18.21. It has no arguments.
    PutRootFh,
    /// RFC 8881, section 18.22.
    Read(Read4Args),
    /// RFC 8881, section 18.32.
    Write(Write4Args<'a>),
    /// RFC 8881, section 18.34.
    BindConn(BindConnArgs),
    /// RFC 8881, section 18.35.
    ExchangeId(ExchangeIdArgs<'a>),
    /// RFC 8881, section 18.36.
    CreateSession(CreateSessionArgs<'a>),
    /// RFC 8881, section 18.37.
    DestroySession(DestroySessionArgs),
    /// RFC 8881, section 18.40.
    GetDeviceInfo(GetDeviceInfoArgs<'a>),
    /// RFC 8881, section 18.42.
    LayoutCommit(LayoutCommitArgs<'a>),
    /// RFC 8881, section 18.43.
    LayoutGet(LayoutGetArgs),
    /// RFC 8881, section 18.44.
    LayoutReturn(LayoutReturnArgs<'a>),
    /// RFC 8881, section 18.46.
    Sequence(Sequence),
    /// RFC 8881, section 18.50.
    DestroyClientId(DestroyClientIdArgs),
    /// RFC 8881, section 18.51.
    ReclaimComplete(ReclaimCompleteArgs),
}

impl<'a> Op<'a> {
    /// The number.
    pub fn number(&self) -> u32
        ensures { result ≡ arm_of argop4 (op_value self.now) }
    {
        operations!(number_of, Op self)
    }
}

/// Reads the arguments of an operation that is built, behind its number.
fn read_op_args<'a>(number: u32, cursor: &mut Cursor<'a>) -> Result<Op<'a>, XdrError>
    requires { IsTrue (has_arm number argop4) }
    ensures { Decodes op_value cursor.old result cursor.new (arm_reading argop4 number cursor.old.bytes cursor.old.at) }
{
    operations!(read_args, Op number, cursor)
}

impl<'a> Message for Op<'a> {
    ghost form = { argop4 };

    ghost meaning = { op_value };

    ghost sound = { refl };
}

impl<'a> Wire<'a> for Op<'a> {
    fn read(cursor: &mut Cursor<'a>) -> Result<Op<'a>, XdrError> {
        let mut fork = cursor.fork();
        let number = fork.number32()?;
        if !is_built_op(number) {
            return Err(XdrError::not_enum(cursor.place()));
        }
        let op = read_op_args(number, &mut fork)?;
        *cursor = fork;
        Ok(op)
    }

    fn put(&self, out: &mut Out) -> Result<(), NoMemory> {
        operations!(put_args, Op self, out)
    }

    fn fits(&self) -> bool {
        operations!(fits_args, Op self)
    }
}
