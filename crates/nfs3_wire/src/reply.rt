//! The results of NFSv3 (RFC 1813, section 3.3).

ghost use Rattle.std.specs.Prelude.{◌≡◌, ◌↔◌, IsTrue};
ghost use Rattle.ff_xdr.specs.Form.{Fits, arm_spelling, arm_of, has_arm};
ghost use Rattle.ff_xdr.specs.Reading.{arm_reading, whole};
ghost use Rattle.ff_xdr.specs.Calls.{Puts, Finds, Decodes};
ghost use Rattle.nfs3_wire.specs.Replies.{nfs3_results, reply_value, plain_reply};

use crate::procedures::{number_of, procedures, read_by, with_part};
use crate::{
    CommitReply, CreateReply, FsInfoReply, GetAttrReply, LookupReply, ReadReply, SetAttrReply,
    WriteReply,
};
use ff_xdr::{Cursor, NoMemory, Out, Wire, XdrError};

/// The result of a procedure that is built.
#[derive(Clone, Copy, Debug, PartialEq, Eq)]
pub enum Reply3<'a> {
    /// Nothing (RFC 1813, section 3.3.0).
    Null,
    GetAttr(GetAttrReply),
    SetAttr(SetAttrReply),
    Lookup(LookupReply<'a>),
    Read(ReadReply<'a>),
    Write(WriteReply),
    Create(CreateReply<'a>),
    FsInfo(FsInfoReply),
    Commit(CommitReply),
}

impl<'a> Reply3<'a> {
    /// The procedure's number.
    pub fn procedure(&self) -> u32
        ensures { result ≡ arm_of nfs3_results (reply_value (plain_reply self.now)) }
    {
        procedures!(number_of, Reply3 self)
    }

    /// The result has a spelling: every length is within its form's maximum, and a refusal's status
    /// is not OK.
    pub fn fits(&self) -> bool
        ensures { IsTrue result ↔ Fits nfs3_results (reply_value (plain_reply self.now)) }
    {
        procedures!(with_part, Reply3 self, true, reply => Wire::fits(reply))
    }
}

/// Reads the result of a procedure that is built, all the bytes. Handles and the
/// data of a READ are slices of them. A refusal names the first byte that no result has there.
pub fn read_reply(procedure: u32, bytes: &[u8]) -> Result<Reply3<'_>, XdrError>
    requires { IsTrue (has_arm procedure nfs3_results) }
    ensures { Finds (λ reply. reply_value (plain_reply reply)) result (whole bytes.now (arm_reading nfs3_results procedure bytes.now 0)) }
{
    let mut cursor = Cursor::new(bytes);
    let reply = result_at(procedure, &mut cursor)?;
    cursor.finish()?;
    Ok(reply)
}

/// Reads the result of a procedure that is built, from the cursor's place on.
fn result_at<'a>(procedure: u32, cursor: &mut Cursor<'a>) -> Result<Reply3<'a>, XdrError>
    requires { IsTrue (has_arm procedure nfs3_results) }
    ensures { Decodes (λ reply. reply_value (plain_reply reply)) cursor.old result cursor.new (arm_reading nfs3_results procedure cursor.old.bytes cursor.old.at) }
{
    Ok(procedures!(read_by, Reply3 procedure, cursor))
}

/// Appends a result, or nothing.
pub fn write_reply(reply: &Reply3<'_>, out: &mut Out) -> Result<(), NoMemory>
    requires { Fits nfs3_results (reply_value (plain_reply reply.now)) }
    ensures { Puts out.old result out.new (arm_spelling nfs3_results (reply_value (plain_reply reply.now))) }
{
    procedures!(with_part, Reply3 reply, Ok(()), part => Wire::write(part, out))
}
