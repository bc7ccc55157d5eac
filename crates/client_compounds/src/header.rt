//! The header of a call: RPC, the program, nobody calls (RFC 5531, section 9).

ghost use Rattle.std.specs.Prelude.{◌≡◌, ◌++◌, []};
ghost use Rattle.rpc_record.specs.declared.call.TheConstants.{NFS_PROGRAM, RPC_VERSION};
ghost use Rattle.ff_xdr.specs.Form.{spelling, word};
ghost use Rattle.ff_xdr.specs.Calls.{Grows};
ghost use Rattle.rpc_record.specs.Rpc.{opaque_auth};
ghost use Rattle.rpc_record.specs.Calls.{call_body};

use ff_xdr::{NoMemory, Out, Wire};
use rpc_record::{AUTH_NONE, Auth, NFS_PROGRAM, RPC_VERSION};

/// The program's version.
pub const NFS_VERSION: u32 = 4;

/// The procedure COMPOUND (RFC 8881, section 16.2).
pub const COMPOUND: u32 = 1;

/// Appends a credential or a verifier that says nothing.
fn put_nobody(out: &mut Out) -> Result<(), NoMemory>
    ensures { Grows out.old result out.new (spelling opaque_auth (0, [])) }
{
    let none = Auth {
        flavor: AUTH_NONE,
        body: &[],
    };
    none.put(out)?;
    Ok(())
}

/// Appends the transaction's number and the version of RPC.
pub fn put_start(xid: u32, out: &mut Out) -> Result<(), NoMemory>
    ensures { Grows out.old result out.new (word xid ++ (word 0 ++ word RPC_VERSION)) }
{
    out.number32(xid)?;
    out.number32(0)?;
    out.number32(RPC_VERSION)?;
    Ok(())
}

/// Appends the rest of the header.
pub fn put_body(out: &mut Out) -> Result<(), NoMemory>
    ensures { Grows out.old result out.new (spelling call_body (NFS_PROGRAM, (NFS_VERSION, (COMPOUND, ((0, []), (0, [])))))) }
{
    out.number32(NFS_PROGRAM)?;
    out.number32(NFS_VERSION)?;
    out.number32(COMPOUND)?;
    put_nobody(out)?;
    put_nobody(out)?;
    Ok(())
}
