//! Replies as bytes, and what a step puts out.

ghost use Rattle.std.specs.Prelude.{◌≡◌, ◌++◌, take, IfOk, OnOk, OnErr};
ghost use Rattle.ff_xdr.specs.Form.{arm_spelling};
ghost use Rattle.rpc_record.specs.Replies.{rpc_reply, reply_bytes, ReplyFits, success};
ghost use Rattle.nfs3_wire.specs.Replies as nfs;
ghost use Rattle.ds_files.specs.Receive.{replies_with};
ghost use Rattle.ds_files.specs.Records.{sent_to};

use crate::receive::replies_with;
use cluster_model::{Entry, NodeId, Outbox};
use ds_procedures::Response;
use ff_xdr::{Data, NoMemory, Out};
use rpc_record::{Reply, ReplyBody};
use std::alloc::Global;

/// The record of a reply.
pub fn encode(alloc: Global, reply: &Reply<'_>) -> Result<Data, NoMemory>
    requires { ReplyFits (rpc_reply reply.now) }
    ensures { IfOk result (λ bytes. bytes ≡ reply_bytes (rpc_reply reply.now)) }
{
    let mut out = Out::new(alloc);
    reply.write(&mut out)?;
    Ok(Data::from_vec(out.into_bytes()))
}

/// The record of a result, for the call with this number: the header of a success, and behind it the
/// result. The data of a READ go from the file into the record.
pub fn success(alloc: Global, xid: u32, response: &Response<'_>) -> Result<Data, NoMemory>
    ensures { IfOk result (λ bytes. bytes ≡ reply_bytes (replies_with xid success (arm_spelling nfs.nfs3_results (nfs.reply_value response.now)))) }
{
    let mut out = Out::new(alloc);
    replies_with(xid, ReplyBody::Success(&[])).write(&mut out)?;
    response.write(&mut out)?;
    Ok(Data::from_vec(out.into_bytes()))
}

/// Puts a record out for a node, where there is one. At an error all is as before.
fn send(out: &mut Outbox, node: NodeId, reply: Option<Data>) -> Result<(), NoMemory>
    ensures ok { OnOk result (out.new.sends.items ≡ out.old.sends.items ++ sent_to node reply) }
    ensures err { OnErr result (out.new.sends.items ≡ out.old.sends.items) }
    ensures entries { out.new.entries.items ≡ out.old.entries.items }
{
    match reply {
        None => Ok(()),
        Some(bytes) => {
            out.sends.push((node, bytes))?;
            Ok(())
        }
    }
}

/// Puts out what a decision has: the reply to a node, where there is one, and the entries of the
/// step. At an error all is as before.
pub fn post(
    out: &mut Outbox,
    node: NodeId,
    reply: Option<Data>,
    mut entries: Vec<Entry>,
) -> Result<(), NoMemory>
    ensures sends { OnOk result (out.new.sends.items ≡ out.old.sends.items ++ sent_to node reply) }
    ensures entries { OnOk result (out.new.entries.items ≡ out.old.entries.items ++ entries.items) }
    ensures sends_stay { OnErr result (out.new.sends.items ≡ out.old.sends.items) }
    ensures entries_stay { OnErr result (out.new.entries.items ≡ out.old.entries.items) }
{
    let sends = out.sends.len();
    send(out, node, reply)?;
    if out.entries.append(&mut entries).is_err() {
        out.sends.truncate(sends);
        return Err(NoMemory);
    }
    Ok(())
}

/// Takes back what was put out since there were so many records and entries.
pub fn take_back(out: &mut Outbox, sends: usize, entries: usize)
    ensures sends { out.new.sends.items ≡ take sends out.old.sends.items }
    ensures entries { out.new.entries.items ≡ take entries out.old.entries.items }
{
    out.sends.truncate(sends);
    out.entries.truncate(entries);
}
