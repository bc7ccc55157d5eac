//! Reading and writing of replies.

ghost use Rattle.std.specs.Prelude.{◌≡◌, ◌↔◌, IsTrue};
ghost use Rattle.ff_xdr.specs.Form.{spelling, Fits};
ghost use Rattle.ff_xdr.specs.Calls.{Decodes, Grows, Puts, Finds};
ghost use Rattle.rpc_record.specs.Replies.{accepted_at, denied_at, reply_body, reply_stat, reply_results, rpc_reply, reply_header_of, auth_none, is_denied, reply_stat_number, reply_body_value, reply_body_at, reply_bytes, ReplyFits, header_at, reply_at};
ghost use Rattle.rpc_record.specs.Rpc.{plain_auth};

use crate::auth::{AUTH_NONE, Auth};
use crate::call_wire::rest;
use crate::reply::{Reply, ReplyBody};
use crate::reply_arms::{
    accepted_by, arm_number, denied_by, is_denied_arm, reply_arms, with_parts,
};
use ff_xdr::{Cursor, NoMemory, Out, Wire, XdrError};

/// What an accepted reply says, without the results of a success.
fn read_accepted<'a>(cursor: &mut Cursor<'a>) -> Result<ReplyBody<'a>, XdrError>
    ensures { Decodes reply_stat cursor.old result cursor.new (accepted_at cursor.old.bytes cursor.old.at) }
{
    let mut fork = cursor.fork();
    let stat = fork.number32()?;
    let body = reply_arms!(
        accepted_by,
        stat,
        &mut fork,
        XdrError::not_enum(cursor.place())
    );
    *cursor = fork;
    Ok(body)
}

/// What a denied reply says.
fn read_denied<'a>(cursor: &mut Cursor<'a>) -> Result<ReplyBody<'a>, XdrError>
    ensures { Decodes reply_stat cursor.old result cursor.new (denied_at cursor.old.bytes cursor.old.at) }
{
    let mut fork = cursor.fork();
    let stat = fork.number32()?;
    let body = reply_arms!(
        denied_by,
        stat,
        &mut fork,
        XdrError::not_enum(cursor.place())
    );
    *cursor = fork;
    Ok(body)
}

/// The verifier that says nothing.
fn no_verifier() -> Auth<'static>
    ensures { plain_auth result ≡ auth_none }
{
    Auth {
        flavor: AUTH_NONE,
        body: &[],
    }
}

/// The verifier and the status of a reply.
fn read_reply_body<'a>(cursor: &mut Cursor<'a>) -> Result<(Auth<'a>, ReplyBody<'a>), XdrError>
    ensures { Decodes (λ b. (plain_auth b.0, reply_stat b.1)) cursor.old result cursor.new (reply_body_at cursor.old.bytes cursor.old.at) }
{
    let mut fork = cursor.fork();
    match fork.number32()? {
        0 => {
            let verf = Auth::read(&mut fork)?;
            let body = read_accepted(&mut fork)?;
            *cursor = fork;
            Ok((verf, body))
        }
        1 => {
            let body = read_denied(&mut fork)?;
            *cursor = fork;
            Ok((no_verifier(), body))
        }
        _ => Err(XdrError::not_enum(cursor.place())),
    }
}

/// The header of a reply: the transaction's number, and the body without results.
#[tactic(auto, using(crate::proofs::Replies::header_of_parts))]
fn read_header<'a>(cursor: &mut Cursor<'a>) -> Result<Reply<'a>, XdrError>
    ensures { Decodes reply_header_of cursor.old result cursor.new (header_at cursor.old.bytes cursor.old.at) }
{
    let mut fork = cursor.fork();
    let xid = fork.number32()?;
    let place = fork.place();
    if fork.number32()? != 1 {
        return Err(XdrError::not_enum(place));
    }
    let (verf, body) = read_reply_body(&mut fork)?;
    *cursor = fork;
    Ok(Reply { xid, verf, body })
}

/// Appends the body of a reply, without results.
fn put_body(verf: Auth<'_>, body: ReplyBody<'_>, out: &mut Out) -> Result<(), NoMemory>
    requires { Fits reply_body (reply_body_value (plain_auth verf) (reply_stat body)) }
    ensures { Grows out.old result out.new (spelling reply_body (reply_body_value (plain_auth verf.entry) (reply_stat body.entry))) }
{
    reply_arms!(with_parts, body, verf, parts => parts.put(out), parts.put(out))
}

impl<'a> ReplyBody<'a> {
    /// The call was refused, `MSG_DENIED`, and not accepted (RFC 5531, section 9).
    pub fn is_denied(&self) -> bool
        ensures { result ≡ is_denied (reply_stat self.now) }
    {
        reply_arms!(is_denied_arm, self)
    }

    /// The number of the status (RFC 5531, section 9): the `reject_stat` of a denied reply, 0 or 1; the
    /// `accept_stat` of any other, 0 to 5.
    pub fn stat(&self) -> u32
        ensures { result ≡ reply_stat_number (reply_stat self.now) }
    {
        reply_arms!(arm_number, self)
    }

    /// The results of a success; of another body none.
    fn results(&self) -> &'a [u8]
        ensures { result.now ≡ reply_results self.now }
    {
        match self {
            ReplyBody::Success(results) => results,
            _ => &[],
        }
    }
}

impl<'a> Reply<'a> {
    fn put(&self, out: &mut Out) -> Result<(), NoMemory>
        requires { ReplyFits (rpc_reply self.now) }
        ensures { Grows out.old result out.new (reply_bytes (rpc_reply self.now)) }
    {
        out.number32(self.xid)?;
        out.number32(1)?;
        put_body(self.verf, self.body, out)?;
        out.raw(self.body.results())?;
        Ok(())
    }

    /// The reply has a spelling that says all of it: the verifier's body has at most 400 bytes, and
    /// where the bytes have no place for a verifier it is of flavor 0 and without bytes.
    pub fn fits(&self) -> bool
        ensures { IsTrue result ↔ ReplyFits (rpc_reply self.now) }
    {
        // the number is looked at, so that the check knows that it fits a word
        let _xid = self.xid;
        let is_none = self.verf.flavor == AUTH_NONE && self.verf.body.is_empty();
        reply_arms!(with_parts, self.body, self.verf, parts => parts.fits(), is_none && parts.fits())
    }

    /// Reads a record as a reply, all the bytes. Results of a success stay in them. A refusal names
    /// the first byte that no reply has there.
    #[tactic(auto, unfolding(crate::specs::Replies::reply_at))]
    pub fn read(message: &'a [u8]) -> Result<Reply<'a>, XdrError>
        ensures { Finds rpc_reply result (reply_at message.now) }
    {
        let mut cursor = Cursor::new(message);
        let reply = read_header(&mut cursor)?;
        match reply.body {
            ReplyBody::Success(_) => {
                let body = ReplyBody::Success(rest(message, cursor.place()));
                Ok(Reply { body, ..reply })
            }
            _ => {
                cursor.finish()?;
                Ok(reply)
            }
        }
    }

    /// Appends the reply's record, or nothing.
    pub fn write(&self, out: &mut Out) -> Result<(), NoMemory>
        requires { ReplyFits (rpc_reply self.now) }
        ensures { Puts out.old result out.new (reply_bytes (rpc_reply self.now)) }
    {
        let mark = out.len();
        match self.put(out) {
            Ok(()) => Ok(()),
            Err(e) => {
                out.truncate(mark);
                Err(e)
            }
        }
    }
}
