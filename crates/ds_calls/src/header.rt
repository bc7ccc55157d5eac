//! The header of a call: RPC, the program, who calls (RFC 5531, section 9 and appendix A).

ghost use Rattle.std.specs.Prelude.{◌≡◌, ◌≤◌, ◌++◌, ◌^◌, ◌<◌, [], length};
ghost use Rattle.rpc_record.specs.declared.auth.TheConstants.{AUTH_SYS};
ghost use Rattle.rpc_record.specs.declared.call.TheConstants.{NFS_PROGRAM, RPC_VERSION};
ghost use Rattle.ds_calls.specs.declared.call.TheConstants.{MAX_MACHINE};
ghost use Rattle.ff_xdr.specs.Form.{spelling, word};
ghost use Rattle.ff_xdr.specs.Calls.{Grows};
ghost use Rattle.rpc_record.specs.Rpc.{plain_credential, opaque_auth};
ghost use Rattle.rpc_record.specs.Calls.{call_body};
ghost use Rattle.ds_calls.specs.MadeCalls.{user_credential, credential_body};

use cluster_model::Cred;
use ff_xdr::{Items, NoMemory, Out, Wire};
use rpc_record::{AUTH_NONE, AUTH_SYS, Auth, AuthSys, NFS_PROGRAM, RPC_VERSION};

/// The program's version.
pub const NFS_VERSION: u32 = 3;

/// A user, whose group has the same number, on a machine.
fn credential<'a>(machine: &'a [u8], user: Cred) -> AuthSys<'a>
    ensures { plain_credential result ≡ user_credential machine.now user.0 }
{
    AuthSys {
        stamp: 0,
        machine,
        uid: user.0,
        gid: user.0,
        gids: Items::made(&[]),
    }
}

/// How many bytes the body of the credential has: five words, and the machine's name up to a multiple of
/// four.
fn body_len(machine: &[u8], user: Cred) -> u32
    requires { length machine.now ≤ MAX_MACHINE }
    ensures { result ≡ length (credential_body machine.now user.0) }
{
    20 + (machine.len() as u32).next_multiple_of(4)
}

/// Appends the credential. It is written in place, since no memory is taken for its body.
fn put_credential(machine: &[u8], user: Cred, out: &mut Out) -> Result<(), NoMemory>
    requires { length machine.now ≤ MAX_MACHINE }
    ensures { Grows out.old result out.new (spelling opaque_auth (1, credential_body machine.now user.0)) }
{
    out.number32(AUTH_SYS)?;
    out.number32(body_len(machine, user))?;
    credential(machine, user).put(out)?;
    Ok(())
}

/// Appends the verifier that says nothing.
fn put_no_verifier(out: &mut Out) -> Result<(), NoMemory>
    ensures { Grows out.old result out.new (spelling opaque_auth (0, [])) }
{
    let none = Auth {
        flavor: AUTH_NONE,
        body: &[],
    };
    none.put(out)?;
    Ok(())
}

/// Appends the transaction's number and the version of RPC.
pub fn put_start(xid: u32, out: &mut Out) -> Result<(), NoMemory>
    ensures { Grows out.old result out.new (word xid ++ (word 0 ++ word RPC_VERSION)) }
{
    out.number32(xid)?;
    out.number32(0)?;
    out.number32(RPC_VERSION)?;
    Ok(())
}

/// Appends the rest of the header.
pub fn put_body(procedure: u32, machine: &[u8], user: Cred, out: &mut Out) -> Result<(), NoMemory>
    requires { length machine.now ≤ MAX_MACHINE }
    ensures { Grows out.old result out.new (spelling call_body (NFS_PROGRAM, (NFS_VERSION, (procedure, ((AUTH_SYS, credential_body machine.now user.0), (0, [])))))) }
{
    out.number32(NFS_PROGRAM)?;
    out.number32(NFS_VERSION)?;
    out.number32(procedure)?;
    put_credential(machine, user, out)?;
    put_no_verifier(out)?;
    Ok(())
}
