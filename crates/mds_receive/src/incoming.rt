//! What a record is.

use ff_xdr::Data;
use nfs4_compound::Compound;
use rpc_record::Reply;

/// What came in a record.
#[derive(Drop)]
pub enum Incoming<'a> {
    /// Neither a call nor a reply in its form. It is passed over.
    Nothing,
    /// A reply, to whichever call is outstanding under its number.
    Reply(Reply<'a>),
    /// A call that is answered at once: the whole record that goes back.
    Answered(Data),
    /// A compound to be run, and the number of its call.
    Compound { xid: u32, compound: Compound<'a> },
}
