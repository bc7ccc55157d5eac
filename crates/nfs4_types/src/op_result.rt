//! What an operation came to.

ghost use Rattle.nfs4_types.specs.OpResults.{result4, result4_value, result4_is_proper};

use crate::{Refusal4, Stat4};
use ff_xdr::{Cursor, Message, NoMemory, Out, Wire, XdrError};

/// What an operation came to, a union by its status (RFC 8881, section 16.2.3): it was done, with what it
/// gave; or it was not, by a status other than OK and nothing more.
#[derive(Clone, Copy, Debug, PartialEq, Eq)]
pub enum OpResult<D> {
    Done(D),
    Refused(Stat4),
}

impl<D: Message> Message for OpResult<D> {
    ghost form = { result4 D.form };

    ghost meaning = { result4_value D.form D.meaning };

    ghost sound = { result4_is_proper D.form D.sound };
}

impl<'a, D: Wire<'a>> Wire<'a> for OpResult<D> {
    fn read(cursor: &mut Cursor<'a>) -> Result<OpResult<D>, XdrError> {
        let mut fork = cursor.fork();
        if fork.number32()? == 0 {
            let done = D::read(&mut fork)?;
            *cursor = fork;
            return Ok(OpResult::Done(done));
        }
        let refusal = Refusal4::read(cursor)?;
        Ok(OpResult::Refused(refusal.status))
    }

    fn put(&self, out: &mut Out) -> Result<(), NoMemory> {
        match self {
            OpResult::Done(done) => {
                out.number32(0)?;
                done.put(out)?;
                Ok(())
            }
            OpResult::Refused(status) => Refusal4 { status: *status }.put(out),
        }
    }

    fn fits(&self) -> bool {
        match self {
            OpResult::Done(done) => done.fits(),
            OpResult::Refused(status) => Refusal4 { status: *status }.fits(),
        }
    }
}
