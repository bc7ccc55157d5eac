//! A client's READ through the metadata server (RFC 8881, section 18.22).

ghost use Rattle.std.specs.Prelude.{◌≡◌};
ghost use Rattle.std.specs.Option.{option_map};
ghost use Rattle.rpc_record.specs.Calls.{rpc_call};
ghost use Rattle.nfs4_file_ops.specs.Read.{read4_args_value};
ghost use Rattle.nfs4_types.specs.Sequences.{sequence4_args_value};
ghost use Rattle.nfs4_compound.specs.Args.{argop4, op_value};
ghost use Rattle.nfs4_compound.specs.Compounds.{compound_at};
ghost use Rattle.ff_laws.specs.ReadCalls.{body_of, in_three, in_ops, nfs4_read, nfs4_read_of, client_read_of};
ghost use Rattle.ff_laws.specs.TakenOps.{TakesOp, is_all_read};

use crate::ReadCall;
use nfs4_compound::{Compound, NextOp, Op, Ops};
use nfs4_file_ops::{PutFhArgs, Read4Args};
use nfs4_types::{Sequence, file_number};
use rpc_record::{Call, NFS_PROGRAM};

/// The arguments of a SEQUENCE.
fn sequence_in(op: Op<'_>) -> Option<Sequence>
    ensures { option_map sequence4_args_value result ≡ body_of 53 argop4 (op_value op.entry) }
{
    match op {
        Op::Sequence(sequence) => Some(sequence),
        _ => None,
    }
}

/// The arguments of a PUTFH.
fn put_fh_in(op: Op<'_>) -> Option<PutFhArgs<'_>>
    ensures { option_map (λ args. args.bytes.now) result ≡ body_of 22 argop4 (op_value op.entry) }
{
    match op {
        Op::PutFh(args) => Some(args),
        _ => None,
    }
}

/// The arguments of a READ.
fn read_in(op: Op<'_>) -> Option<Read4Args>
    ensures { option_map read4_args_value result ≡ body_of 25 argop4 (op_value op.entry) }
{
    match op {
        Op::Read(args) => Some(args),
        _ => None,
    }
}

/// Three operations, where they are SEQUENCE, PUTFH and READ.
fn read_of_three(xid: u32, first: Op<'_>, second: Op<'_>, third: Op<'_>) -> Option<ReadCall>
    ensures { result ≡ in_three xid (op_value first.entry) (op_value second.entry) (op_value third.entry) }
{
    sequence_in(first)?;
    let file = put_fh_in(second)?;
    let read = read_in(third)?;
    let handle = file_number(file.bytes)?;
    Some(ReadCall {
        xid,
        handle,
        offset: read.offset,
        count: read.count,
    })
}

/// The next operation, where one is read.
fn take_op<'a>(ops: &mut Ops<'a>) -> Option<Op<'a>>
    ensures { TakesOp ops.old result ops.new }
{
    match ops.next() {
        NextOp::Op(op) => Some(op),
        NextOp::End | NextOp::Unread(_) | NextOp::Bad(_) => None,
    }
}

/// No operation is left, and no byte behind the last.
fn is_all_read(ops: &mut Ops<'_>) -> bool
    ensures { result ≡ is_all_read ops.old.values ops.old.stop }
{
    match ops.next() {
        NextOp::End => ops.rest().is_none(),
        NextOp::Op(_) | NextOp::Unread(_) | NextOp::Bad(_) => false,
    }
}

/// The operations of a compound.
fn read_of_ops(xid: u32, compound: &Compound<'_>) -> Option<ReadCall>
    ensures { result ≡ in_ops xid compound.now.ops.values compound.now.ops.stop }
{
    let mut ops = compound.ops();
    let first = take_op(&mut ops)?;
    let second = take_op(&mut ops)?;
    let third = take_op(&mut ops)?;
    if !is_all_read(&mut ops) {
        return None;
    }
    read_of_three(xid, first, second, third)
}

/// The arguments of a COMPOUND.
fn read_with(xid: u32, args: &[u8]) -> Option<ReadCall>
    ensures { result ≡ nfs4_read xid (compound_at args.now) }
{
    match Compound::read(args) {
        Ok(compound) => read_of_ops(xid, &compound),
        Err(_) => None,
    }
}

/// A call whose program, version and procedure are those of COMPOUND.
fn nfs4_read(call: &Call<'_>) -> Option<ReadCall>
    ensures { result ≡ nfs4_read_of (rpc_call call.now) }
{
    match (call.program, call.version, call.procedure) {
        (NFS_PROGRAM, 4, 1) => read_with(call.xid, call.args),
        _ => None,
    }
}

/// What a client's record asks of a file: `None` where it is no call of NFSv4 (program 100003, version 4, procedure 1) whose
/// operations are SEQUENCE, PUTFH and READ, each in its form, with nothing behind them; or names the file by a handle that has
/// not eight bytes. Takes no memory.
pub fn client_read(message: &[u8]) -> Option<ReadCall>
    ensures { result ≡ client_read_of message.now }
{
    match Call::read(message) {
        Ok(call) => nfs4_read(&call),
        Err(_) => None,
    }
}
