//! The calls of NFSv3 (RFC 1813, section 3.3).

ghost use Rattle.std.specs.Prelude.{◌≡◌, ◌↔◌, IsTrue};
ghost use Rattle.ff_xdr.specs.Form.{Fits, arm_spelling, arm_of, has_arm};
ghost use Rattle.ff_xdr.specs.Reading.{arm_reading, whole};
ghost use Rattle.ff_xdr.specs.Calls.{Puts, Finds, Decodes};
ghost use Rattle.nfs3_wire.specs.Calls.{calls, call_value, plain_call};

use crate::procedures::{is_one, number_of, procedures, read_by, with_part};
use crate::{
    CommitArgs, CreateArgs, FsInfoArgs, GetAttrArgs, LookupArgs, ReadArgs, SetAttrArgs, WriteArgs,
};
use ff_xdr::{Cursor, NoMemory, Out, Wire, XdrError};

/// A call of a procedure that is built.
#[derive(Clone, Copy, Debug, PartialEq, Eq)]
pub enum Call3<'a> {
    /// Do nothing (RFC 1813, section 3.3.0).
    Null,
    GetAttr(GetAttrArgs<'a>),
    SetAttr(SetAttrArgs<'a>),
    Lookup(LookupArgs<'a>),
    Read(ReadArgs<'a>),
    Write(WriteArgs<'a>),
    Create(CreateArgs<'a>),
    FsInfo(FsInfoArgs<'a>),
    Commit(CommitArgs<'a>),
}

impl<'a> Call3<'a> {
    /// The procedure's number.
    pub fn procedure(&self) -> u32
        ensures { result ≡ arm_of calls (call_value (plain_call self.now)) }
    {
        procedures!(number_of, Call3 self)
    }

    /// The call has a spelling: every length is within its form's maximum.
    pub fn fits(&self) -> bool
        ensures { IsTrue result ↔ Fits calls (call_value (plain_call self.now)) }
    {
        procedures!(with_part, Call3 self, true, args => Wire::fits(args))
    }
}

/// The procedure with this number is built.
pub fn is_built(procedure: u32) -> bool
    ensures { result ≡ has_arm procedure calls }
{
    procedures!(is_one, procedure)
}

/// Reads the arguments of a procedure that is built, all the bytes. Handles, names
/// and the data of a WRITE are slices of them. A refusal names the first byte that no arguments have
/// there.
pub fn read_call(procedure: u32, args: &[u8]) -> Result<Call3<'_>, XdrError>
    requires { IsTrue (has_arm procedure calls) }
    ensures { Finds (λ call. call_value (plain_call call)) result (whole args.now (arm_reading calls procedure args.now 0)) }
{
    let mut cursor = Cursor::new(args);
    let call = arguments_at(procedure, &mut cursor)?;
    cursor.finish()?;
    Ok(call)
}

/// Reads the arguments of a procedure that is built, from the cursor's place on.
fn arguments_at<'a>(procedure: u32, cursor: &mut Cursor<'a>) -> Result<Call3<'a>, XdrError>
    requires { IsTrue (has_arm procedure calls) }
    ensures { Decodes (λ call. call_value (plain_call call)) cursor.old result cursor.new (arm_reading calls procedure cursor.old.bytes cursor.old.at) }
{
    Ok(procedures!(read_by, Call3 procedure, cursor))
}

/// Appends the arguments of a call, or nothing.
pub fn write_call(call: &Call3<'_>, out: &mut Out) -> Result<(), NoMemory>
    requires { Fits calls (call_value (plain_call call.now)) }
    ensures { Puts out.old result out.new (arm_spelling calls (call_value (plain_call call.now))) }
{
    procedures!(with_part, Call3 call, Ok(()), args => Wire::write(args, out))
}
