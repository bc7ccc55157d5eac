//! What a call came to.

ghost use Rattle.ff_xdr.specs.Form.{Arm, Pair};
ghost use Rattle.nfs3_wire.specs.Outcomes.{outcome_value, outcome_is_proper};
ghost use Rattle.nfs3_wire.specs.Status.{refusal};

use crate::Stat3;
use ff_xdr::{Cursor, Message, NoMemory, Out, Wire, XdrError};

/// What a call came to, a union by its status (RFC 1813, section 2.6): it was done, with what it gave;
/// or it was refused, by a status other than OK, with what goes with that.
#[derive(Clone, Copy, Debug, PartialEq, Eq)]
pub enum Outcome<D, R> {
    Done(D),
    Refused(Stat3, R),
}

impl<D: Message, R: Message> Message for Outcome<D, R> {
    ghost form = { Arm 0 D.form (Pair refusal R.form) };

    ghost meaning = { outcome_value D.form R.form D.meaning R.meaning };

    ghost sound = { outcome_is_proper D.form R.form D.sound R.sound };
}

impl<'a, D: Wire<'a>, R: Wire<'a>> Wire<'a> for Outcome<D, R> {
    fn read(cursor: &mut Cursor<'a>) -> Result<Outcome<D, R>, XdrError> {
        let mut fork = cursor.fork();
        if fork.number32()? == 0 {
            let done = D::read(&mut fork)?;
            *cursor = fork;
            return Ok(Outcome::Done(done));
        }
        let (status, fields) = <(Stat3, R)>::read(cursor)?;
        Ok(Outcome::Refused(status, fields))
    }

    fn put(&self, out: &mut Out) -> Result<(), NoMemory> {
        match self {
            Outcome::Done(done) => {
                out.number32(0)?;
                done.put(out)
            }
            Outcome::Refused(status, fields) => {
                status.put(out)?;
                fields.put(out)
            }
        }
    }

    fn fits(&self) -> bool {
        match self {
            Outcome::Done(done) => done.fits(),
            Outcome::Refused(status, fields) => status.fits() && fields.fits(),
        }
    }
}
