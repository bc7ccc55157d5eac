//! The answer to a call.

ghost use Rattle.std.specs.Prelude.{◌≡◌, [], unwrap_or, IfOk};
ghost use Rattle.ff_xdr.specs.Form.{Fits, arm_spelling};
ghost use Rattle.ff_xdr.specs.Calls.{Puts};
ghost use Rattle.nfs3_wire.specs.Replies.{nfs3_results, reply_value, plain_reply, ReadDone};
ghost use Rattle.ds_procedures.specs.Answer.{reply_with};

use crate::stored::{StoredReply, lend};
use cluster_model::Entry;
use data_file::FilePart;
use ff_xdr::{Data, NoMemory, Out, Wire};
use nfs3_wire::{Fattr3, Reply3, write_reply};
use std::alloc::Global;
use std::marker::Model;

/// The status of what was done (RFC 1813, section 2.6).
const NFS3_OK: u32 = 0;

/// What a call is answered. The data of a READ are a part of the file.
#[derive(Drop)]
pub struct Response<'s> {
    reply: StoredReply,
    // the data of a READ that was done, and none of another call
    part: Option<FilePart<'s>>,
}

impl<'s> Model for Response<'s> {
    ghost use Rattle.std.specs.Prelude.{[], unwrap_or};
    ghost use Rattle.ff_xdr.specs.Form.{Fits};
    ghost use Rattle.nfs3_wire.specs.Replies.{Nfs3Reply, nfs3_results, reply_value};
    ghost use Rattle.ds_procedures.specs.Answer.{reply_with};

    ghost Value = { Nfs3Reply };

    ghost view = { λ r. reply_with r.reply (unwrap_or r.part []) };

    ghost invariant = { λ r. Fits nfs3_results (reply_value (reply_with r.reply (unwrap_or r.part []))) };
}

/// Appends a result that has no data of a READ, or nothing.
fn write_plain(reply: &StoredReply, out: &mut Out) -> Result<(), NoMemory>
    requires { Fits nfs3_results (reply_value (reply_with reply.now [])) }
    ensures { Puts out.old result out.new (arm_spelling nfs3_results (reply_value (reply_with reply.now []))) }
{
    write_reply(&lend(reply, &[]), out)
}

/// Appends the result of a READ that was done, or nothing: the status, the attributes, the count, whether the
/// file ends there, and the data (RFC 1813, section 3.3.6).
fn write_read(
    attributes: Option<Fattr3>,
    count: u32,
    eof: bool,
    part: &FilePart<'_>,
    out: &mut Out,
) -> Result<(), NoMemory>
    requires { Fits nfs3_results (reply_value (ReadDone attributes count eof part.now)) }
    ensures { Puts out.old result out.new (arm_spelling nfs3_results (reply_value (ReadDone attributes count eof part.now))) }
{
    let mark = out.len();
    (NFS3_OK, attributes, (count, eof)).write(out)?;
    if part.put_opaque(out).is_err() {
        out.truncate(mark);
        return Err(NoMemory);
    }
    Ok(())
}

/// Appends a result, whose READ gave this part, or nothing.
fn write_with(reply: &StoredReply, part: &FilePart<'_>, out: &mut Out) -> Result<(), NoMemory>
    requires { Fits nfs3_results (reply_value (reply_with reply.now part.now)) }
    ensures { Puts out.old result out.new (arm_spelling nfs3_results (reply_value (reply_with reply.now part.now))) }
{
    match reply {
        StoredReply::ReadDone {
            attributes,
            count,
            eof,
        } => write_read(*attributes, *count, *eof, part, out),
        _ => write_plain(reply, out),
    }
}

/// A copy of a part, and of no bytes where there is none.
fn data_of(alloc: Global, part: &Option<FilePart<'_>>) -> Result<Data, NoMemory>
    ensures { IfOk result (λ copy. copy ≡ unwrap_or part.now []) }
{
    match part {
        None => Ok(Data::from_vec(Vec::new(alloc))),
        Some(part) => part.to_data(alloc),
    }
}

impl<'s> Response<'s> {
    /// This result, which has no data of a READ.
    pub fn new(reply: StoredReply) -> Response<'s>
        requires { Fits nfs3_results (reply_value (reply_with reply [])) }
        ensures { result ≡ reply_with reply [] }
    {
        Response { reply, part: None }
    }

    /// This result, whose READ gave this part.
    pub fn of_read(reply: StoredReply, part: FilePart<'s>) -> Response<'s>
        requires { Fits nfs3_results (reply_value (reply_with reply part)) }
        ensures { result ≡ reply_with reply part.entry }
    {
        Response {
            reply,
            part: Some(part),
        }
    }

    /// Appends the result as its procedure spells it, or nothing (RFC 1813, section 3.3). The data of a READ
    /// go from the file into `out`.
    ///
    /// # Errors
    ///
    /// `NoMemory` where memory is wanted, and `out` is as it was.
    pub fn write(&self, out: &mut Out) -> Result<(), NoMemory>
        ensures { Puts out.old result out.new (arm_spelling nfs3_results (reply_value self.now)) }
    {
        match &self.part {
            None => write_plain(&self.reply, out),
            Some(part) => write_with(&self.reply, part, out),
        }
    }

    /// The result and the entries of the step, with bytes of their own.
    pub fn keep(&self, alloc: Global, entries: Vec<Entry>) -> Result<Answer3, NoMemory>
        ensures { IfOk result (λ answer. answer ≡ record { reply = self.now; entries = entries.items }) }
    {
        let bytes = data_of(alloc, &self.part)?;
        Ok(Answer3 {
            reply: self.reply,
            bytes,
            entries,
        })
    }
}

/// What a data server answers to a call, and the entries of that step.
#[derive(Debug, Drop)]
pub struct Answer3 {
    reply: StoredReply,
    // the data of a READ, and none of another call
    bytes: Data,
    entries: Vec<Entry>,
}

impl Model for Answer3 {
    ghost use Rattle.ff_xdr.specs.Form.{Fits};
    ghost use Rattle.nfs3_wire.specs.Replies.{nfs3_results, reply_value};
    ghost use Rattle.ds_procedures.specs.Answer.{Answer, reply_with};

    ghost Value = { Answer };

    ghost view = { λ a. record { reply = reply_with a.reply a.bytes; entries = a.entries.items } };

    ghost invariant = { λ a. Fits nfs3_results (reply_value (reply_with a.reply a.bytes)) };
}

impl Answer3 {
    /// The result; takes no memory.
    pub fn reply(&self) -> Reply3<'_>
        ensures same { plain_reply result ≡ self.now.reply }
        ensures fits { Fits nfs3_results (reply_value self.now.reply) }
    {
        lend(&self.reply, self.bytes.bytes())
    }

    /// The entries of the step, in order; takes no memory.
    pub fn entries(&self) -> &[Entry]
        ensures { result.now ≡ self.now.entries }
    {
        self.entries.as_slice()
    }
}
