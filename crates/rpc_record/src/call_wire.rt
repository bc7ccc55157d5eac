//! Reading and writing of calls.

ghost use Rattle.std.specs.Prelude.{◌≡◌, ◌+◌, ◌≤◌, ◌++◌, length, drop};
ghost use Rattle.rpc_record.specs.declared.call.TheConstants.{RPC_VERSION};
ghost use Rattle.ff_xdr.specs.Form.{Fits, spelling, word};
ghost use Rattle.ff_xdr.specs.Calls.{Grows, Puts, Finds};
ghost use Rattle.ff_xdr.specs.Reading.{reading};
ghost use Rattle.rpc_record.specs.Calls.{rpc_call, call_body, body_value, call_bytes, call_at, body_at, word_of, HasBody};

use crate::auth::Auth;
use crate::call::{Call, CallFault, RPC_VERSION};
use ff_xdr::{Cursor, NoMemory, Out, Wire, XdrError};

/// The word at a place.
#[tactic(auto, unfolding(crate::specs::Calls::word_of))]
fn word_of(bytes: &[u8], at: usize) -> u32
    requires { at + 4 ≤ length bytes.now }
    ensures { result ≡ word_of bytes.now at }
{
    let word = &bytes[at..at + 4];
    u32::from_be_bytes([word[0], word[1], word[2], word[3]])
}

/// The bytes from a place on.
pub fn rest(bytes: &[u8], at: usize) -> &[u8]
    requires { at ≤ length bytes.now }
    ensures { result.now ≡ drop at bytes.now }
{
    &bytes[at..]
}

/// A call's header behind the RPC version, and the arguments.
fn body_of<'a>(xid: u32, cursor: &mut Cursor<'a>) -> Result<Call<'a>, XdrError>
    ensures { HasBody xid cursor.old.bytes result (reading call_body cursor.old.bytes cursor.old.at) }
{
    let program = cursor.number32()?;
    let version = cursor.number32()?;
    let procedure = cursor.number32()?;
    let cred = Auth::read(cursor)?;
    let verf = Auth::read(cursor)?;
    Ok(Call {
        xid,
        program,
        version,
        procedure,
        cred,
        verf,
        args: rest(cursor.bytes(), cursor.place()),
    })
}

/// The same, as the end of a record.
#[tactic(auto, unfolding(crate::specs::Calls::body_at))]
fn read_body<'a>(xid: u32, cursor: &mut Cursor<'a>) -> Result<Call<'a>, CallFault>
    ensures { Finds rpc_call result (body_at xid cursor.old.bytes cursor.old.at) }
{
    match body_of(xid, cursor) {
        Ok(call) => Ok(call),
        Err(error) => Err(CallFault::Bad { xid, error }),
    }
}

impl<'a> Call<'a> {
    fn put_header(&self, out: &mut Out) -> Result<(), NoMemory>
        ensures { Grows out.old result out.new (word self.now.xid ++ (word 0 ++ word RPC_VERSION)) }
    {
        out.number32(self.xid)?;
        out.number32(0)?;
        out.number32(RPC_VERSION)?;
        Ok(())
    }

    fn put_body(&self, out: &mut Out) -> Result<(), NoMemory>
        requires { Fits call_body (body_value (rpc_call self.now)) }
        ensures { Grows out.old result out.new (spelling call_body (body_value (rpc_call self.now))) }
    {
        out.number32(self.program)?;
        out.number32(self.version)?;
        out.number32(self.procedure)?;
        self.cred.put(out)?;
        self.verf.put(out)?;
        Ok(())
    }

    fn put(&self, out: &mut Out) -> Result<(), NoMemory>
        requires { Fits call_body (body_value (rpc_call self.now)) }
        ensures { Grows out.old result out.new (call_bytes (rpc_call self.now)) }
    {
        self.put_header(out)?;
        self.put_body(out)?;
        out.raw(self.args)?;
        Ok(())
    }
}

impl<'a> Call<'a> {
    /// Reads a record as a call.
    #[tactic(auto, unfolding(crate::specs::Calls::call_at))]
    pub fn read(message: &'a [u8]) -> Result<Call<'a>, CallFault>
        ensures { Finds rpc_call result (call_at message.now) }
    {
        if message.len() < 8 || word_of(message, 4) != 0 {
            return Err(CallFault::NotACall);
        }
        let xid = word_of(message, 0);
        let mut cursor = Cursor::at(message, 8);
        match cursor.number32() {
            Err(error) => Err(CallFault::Bad { xid, error }),
            Ok(RPC_VERSION) => read_body(xid, &mut cursor),
            Ok(_) => Err(CallFault::RpcVersion { xid }),
        }
    }

    /// Appends the call's record, or nothing.
    pub fn write(&self, out: &mut Out) -> Result<(), NoMemory>
        requires { Fits call_body (body_value (rpc_call self.now)) }
        ensures { Puts out.old result out.new (call_bytes (rpc_call self.now)) }
    {
        let mark = out.len();
        match self.put(out) {
            Ok(()) => Ok(()),
            Err(e) => {
                out.truncate(mark);
                Err(e)
            }
        }
    }
}
