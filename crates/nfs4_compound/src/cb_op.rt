//! The operations of a callback compound (RFC 8881, section 20).

ghost use Rattle.std.specs.Prelude.{◌≡◌, IsTrue, refl};
ghost use Rattle.ff_xdr.specs.Calls.{Decodes};
ghost use Rattle.ff_xdr.specs.Form.{arm_of, has_arm};
ghost use Rattle.ff_xdr.specs.Reading.{arm_reading};
ghost use Rattle.nfs4_compound.specs.CbArgs.{cb_argop4, cb_op_value};

use crate::is_built_cb_op;
use crate::operations::{callbacks, fits_args, number_of, put_args, read_args};
use ff_xdr::{Cursor, Message, NoMemory, Out, Wire, XdrError};
use nfs4_file_ops::CbLayoutRecallArgs;
use nfs4_session_ops::CbSequenceArgs;

/// An operation of a callback compound, with its arguments, `nfs_cb_argop4` (RFC 8881, section 20.2). A
/// number that is not built is refused as `NotEnum`.
#[derive(Clone, Copy, Debug)]
pub enum CbOp<'a> {
    /// RFC 8881, section 20.3.
    LayoutRecall(CbLayoutRecallArgs<'a>),
    /// RFC 8881, section 20.9.
    Sequence(CbSequenceArgs<'a>),
}

impl<'a> CbOp<'a> {
    /// The number.
    pub fn number(&self) -> u32
        ensures { result ≡ arm_of cb_argop4 (cb_op_value self.now) }
    {
        callbacks!(number_of, CbOp self)
    }
}

/// Reads the arguments of a callback that is built, behind its number.
fn read_cb_op_args<'a>(number: u32, cursor: &mut Cursor<'a>) -> Result<CbOp<'a>, XdrError>
    requires { IsTrue (has_arm number cb_argop4) }
    ensures { Decodes cb_op_value cursor.old result cursor.new (arm_reading cb_argop4 number cursor.old.bytes cursor.old.at) }
{
    callbacks!(read_args, CbOp number, cursor)
}

impl<'a> Message for CbOp<'a> {
    ghost form = { cb_argop4 };

    ghost meaning = { cb_op_value };

    ghost sound = { refl };
}

impl<'a> Wire<'a> for CbOp<'a> {
    fn read(cursor: &mut Cursor<'a>) -> Result<CbOp<'a>, XdrError> {
        let mut fork = cursor.fork();
        let number = fork.number32()?;
        if !is_built_cb_op(number) {
            return Err(XdrError::not_enum(cursor.place()));
        }
        let op = read_cb_op_args(number, &mut fork)?;
        *cursor = fork;
        Ok(op)
    }

    fn put(&self, out: &mut Out) -> Result<(), NoMemory> {
        callbacks!(put_args, CbOp self, out)
    }

    fn fits(&self) -> bool {
        callbacks!(fits_args, CbOp self)
    }
}
