//! The operations of a recall.

ghost use Rattle.std.specs.Prelude.{◌≡◌};
ghost use Rattle.ff_xdr.specs.Form.{Fits};
ghost use Rattle.nfs4_compound.specs.CbArgs.{cb_argop4, cb_op_value};
ghost use Rattle.recall_calls.specs.RecallCalls.{cb_sequence_op, layout_recall_op};

use ff_xdr::{Array, Items};
use nfs4_compound::CbOp;
use nfs4_file_ops::{CbLayoutRecallArgs, LayoutRecall, LayoutRecallFile};
use nfs4_session_ops::CbSequenceArgs;
use nfs4_types::{Handle4, SessionId, Stateid};

/// Flexible files, `LAYOUT4_FLEX_FILES` (RFC 8435, section 5.1).
pub const FLEX_FILES: u32 = 4;

/// For reading and writing, `LAYOUTIOMODE4_RW` (RFC 8881, section 3.3.20).
pub const READ_WRITE: u32 = 2;

/// CB_SEQUENCE on slot 0, whose reply is not kept (RFC 8881, section 20.9).
pub fn cb_sequence_op<'a>(session: SessionId, sequence: u32) -> CbOp<'a>
    ensures value { cb_op_value result ≡ cb_sequence_op session sequence }
    ensures fits { Fits cb_argop4 (cb_op_value result) }
{
    let none = Items::made(&[]);
    CbOp::Sequence(CbSequenceArgs {
        session,
        sequence,
        slot: 0,
        highest: 0,
        cachethis: false,
        referring: Array { items: none },
    })
}

/// CB_LAYOUTRECALL of all bytes of a file under this stateid (RFC 8881, section 20.3).
pub fn layout_recall_op<'a>(handle: &'a [u8; 8], stateid: Stateid) -> CbOp<'a>
    ensures value { cb_op_value result ≡ layout_recall_op handle.now stateid }
    ensures fits { Fits cb_argop4 (cb_op_value result) }
{
    let file = LayoutRecallFile {
        file: Handle4 { bytes: handle },
        offset: 0,
        length: u64::MAX,
        stateid,
    };
    CbOp::LayoutRecall(CbLayoutRecallArgs {
        layout_type: FLEX_FILES,
        iomode: READ_WRITE,
        changed: false,
        kind: LayoutRecall::File(file),
    })
}
