//! The results of the operations of a callback compound (RFC 8881, section 20).

ghost use Rattle.std.specs.Prelude.{◌≡◌, IsTrue, nat_eq, refl};
ghost use Rattle.std.specs.List.{list_any};
ghost use Rattle.ff_xdr.specs.Calls.{Decodes};
ghost use Rattle.ff_xdr.specs.Form.{has_arm};
ghost use Rattle.ff_xdr.specs.Reading.{arm_reading};
ghost use Rattle.nfs4_compound.specs.Behind.{union_number};
ghost use Rattle.nfs4_compound.specs.CbResults.{cb_op_numbers, cb_resop4, cb_res_value};

use crate::operations::{
    callbacks, fits_result, is_one, number_of_result, put_result, read_result,
};
use ff_xdr::{Cursor, Message, NoMemory, Out, Wire, XdrError};
use nfs4_file_ops::CbLayoutRecallRes;
use nfs4_session_ops::CbSequenceRes;
use nfs4_types::{Refusal4, Stat4};

/// The callback with this number is built.
pub fn is_built_cb_op(number: u32) -> bool
    ensures { result ≡ list_any (nat_eq number) cb_op_numbers }
{
    callbacks!(is_one, number)
}

/// The result of an operation of a callback compound, `nfs_cb_resop4` (RFC 8881, section 20.2).
#[derive(Clone, Copy, Debug)]
pub enum CbRes {
    /// RFC 8881, section 20.3.
    LayoutRecall(CbLayoutRecallRes),
    /// RFC 8881, section 20.9.
    Sequence(CbSequenceRes),
    /// A status other than OK under a number that is not built.
    Unbuilt(u32, Stat4),
}

impl CbRes {
    /// The number under which it stands.
    pub fn number(&self) -> u32
        ensures { result ≡ union_number cb_resop4 (cb_res_value self.now) }
    {
        callbacks!(number_of_result, CbRes self, [CbRes::Unbuilt(number, _) => *number,])
    }
}

/// Reads the result of a callback that is built, behind its number.
fn read_cb_op_result<'a>(number: u32, cursor: &mut Cursor<'a>) -> Result<CbRes, XdrError>
    requires { IsTrue (has_arm number cb_resop4) }
    ensures { Decodes cb_res_value cursor.old result cursor.new (arm_reading cb_resop4 number cursor.old.bytes cursor.old.at) }
{
    callbacks!(read_result, CbRes number, cursor)
}

impl Message for CbRes {
    ghost form = { cb_resop4 };

    ghost meaning = { cb_res_value };

    ghost sound = { refl };
}

impl<'a> Wire<'a> for CbRes {
    fn read(cursor: &mut Cursor<'a>) -> Result<CbRes, XdrError> {
        let mut fork = cursor.fork();
        let number = fork.number32()?;
        if !is_built_cb_op(number) {
            let refusal = Refusal4::read(&mut fork)?;
            *cursor = fork;
            return Ok(CbRes::Unbuilt(number, refusal.status));
        }
        let result = read_cb_op_result(number, &mut fork)?;
        *cursor = fork;
        Ok(result)
    }

    fn put(&self, out: &mut Out) -> Result<(), NoMemory> {
        callbacks!(put_result, CbRes self, out, [
            CbRes::Unbuilt(number, status) => (*number, Refusal4 { status: *status }).put(out),
        ])
    }

    fn fits(&self) -> bool {
        callbacks!(fits_result, CbRes self, [
            CbRes::Unbuilt(number, status) => {
                !is_built_cb_op(*number) && Refusal4 { status: *status }.fits()
            }
        ])
    }
}
