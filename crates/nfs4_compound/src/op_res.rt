//! The results of operations (RFC 8881, section 18).

ghost use Rattle.std.specs.Prelude.{◌≡◌, IsTrue, nat_eq, refl};
ghost use Rattle.std.specs.List.{list_any};
ghost use Rattle.ff_xdr.specs.Calls.{Decodes};
ghost use Rattle.ff_xdr.specs.Form.{has_arm};
ghost use Rattle.ff_xdr.specs.Reading.{arm_reading};
ghost use Rattle.nfs4_compound.specs.Behind.{union_number};
ghost use Rattle.nfs4_compound.specs.Results.{op_numbers, served_resop4, resop4, op_res_value};

use crate::operations::{
    debug_result, fits_result, is_one, number_of_result, operations, put_result, read_result,
};
use ff_xdr::{Cursor, Message, NoMemory, Out, Wire, XdrError};
use nfs4_file_ops::{
    CloseRes, Commit4Res, GetAttr4Res, GetDeviceInfoRes, GetFhRes, LayoutCommitRes, LayoutGetRes,
    LayoutReturnRes, Lookup4Res, OpenRes, PutFhRes, PutRootFhRes, Read4Res, Write4Res,
};
use nfs4_session_ops::{
    BindConnRes, CreateSessionRes, DestroyClientIdRes, DestroySessionRes, ExchangeIdRes,
    ReclaimCompleteRes, SequenceRes,
};
use nfs4_unserved_ops::UnservedRes;
use std::fmt;

/// The operation with this number is carried out.
pub fn is_built_op(number: u32) -> bool
    ensures { result ≡ list_any (nat_eq number) op_numbers }
{
    operations!(is_one, number)
}

/// The result of an operation, `nfs_resop4` (RFC 8881, section 16.2.3).
#[derive(Clone, Copy)]
pub enum OpRes<'a> {
    /// RFC 8881, section 18.2.
    Close(CloseRes),
    /// RFC 8881, section 18.3.
    Commit(Commit4Res),
    /// RFC 8881, section 18.7.
    GetAttr(GetAttr4Res<'a>),
    /// RFC 8881, section 18.8.
    GetFh(GetFhRes<'a>),
    /// RFC 8881, section 18.13.
    Lookup(Lookup4Res),
    /// RFC 8881, section 18.16.
    Open(OpenRes<'a>),
    /// RFC 8881, section 18.19.
    PutFh(PutFhRes),
    /// RFC 8881, section 18.21.
    PutRootFh(PutRootFhRes),
    /// RFC 8881, section 18.22.
    Read(Read4Res<'a>),
    /// RFC 8881, section 18.32.
    Write(Write4Res),
    /// RFC 8881, section 18.34.
    BindConn(BindConnRes),
    /// RFC 8881, section 18.35.
    ExchangeId(ExchangeIdRes<'a>),
    /// RFC 8881, section 18.36.
    CreateSession(CreateSessionRes),
    /// RFC 8881, section 18.37.
    DestroySession(DestroySessionRes),
    /// RFC 8881, section 18.40.
    GetDeviceInfo(GetDeviceInfoRes<'a>),
    /// RFC 8881, section 18.42.
    LayoutCommit(LayoutCommitRes),
    /// RFC 8881, section 18.43.
    LayoutGet(LayoutGetRes<'a>),
    /// RFC 8881, section 18.44.
    LayoutReturn(LayoutReturnRes),
    /// RFC 8881, section 18.46.
    Sequence(SequenceRes),
    /// RFC 8881, section 18.50.
    DestroyClientId(DestroyClientIdRes),
    /// RFC 8881, section 18.51.
    ReclaimComplete(ReclaimCompleteRes),
    /// That of an operation that is not carried out, or a status other than OK under any other number.
    Unserved(UnservedRes<'a>),
}

impl<'a> OpRes<'a> {
    /// The number under which it stands.
    pub fn number(&self) -> u32
        ensures { result ≡ union_number resop4 (op_res_value self.now) }
    {
        operations!(number_of_result, OpRes self, [OpRes::Unserved(result) => result.number(),])
    }
}

/// Reads the result of an operation that is carried out, behind its number.
fn read_op_result<'a>(number: u32, cursor: &mut Cursor<'a>) -> Result<OpRes<'a>, XdrError>
    requires { IsTrue (has_arm number served_resop4) }
    ensures { Decodes op_res_value cursor.old result cursor.new (arm_reading resop4 number cursor.old.bytes cursor.old.at) }
{
    operations!(read_result, OpRes number, cursor)
}

impl<'a> fmt::Debug for OpRes<'a> {
    fn fmt<W: fmt::Write>(&self, f: &mut fmt::Formatter<W>) -> fmt::Result {
        operations!(debug_result, OpRes self, f, [OpRes::Unserved(result) => result.fmt(f),])
    }
}

impl<'a> Message for OpRes<'a> {
    ghost form = { resop4 };

    ghost meaning = { op_res_value };

    ghost sound = { refl };
}

impl<'a> Wire<'a> for OpRes<'a> {
    fn read(cursor: &mut Cursor<'a>) -> Result<OpRes<'a>, XdrError> {
        let mut fork = cursor.fork();
        let number = fork.number32()?;
        if !is_built_op(number) {
            return Ok(OpRes::Unserved(UnservedRes::read(cursor)?));
        }
        let result = read_op_result(number, &mut fork)?;
        *cursor = fork;
        Ok(result)
    }

    fn put(&self, out: &mut Out) -> Result<(), NoMemory> {
        operations!(put_result, OpRes self, out, [OpRes::Unserved(result) => result.put(out),])
    }

    fn fits(&self) -> bool {
        operations!(fits_result, OpRes self, [OpRes::Unserved(result) => result.fits(),])
    }
}
