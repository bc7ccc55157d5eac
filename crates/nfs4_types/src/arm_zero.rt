//! Unions of which one arm is built.

ghost use Rattle.nfs4_types.specs.ArmZero.{arm_zero, arm_zero_is_proper};
ghost use Rattle.std.proofs.Common.{inl};

use ff_xdr::{Cursor, Message, NoMemory, Out, Wire, XdrError};

/// A union of which only the arm of number 0 is built: `SP4_NONE` of the state protection,
/// `OPEN_DELEGATE_NONE` of a delegation, `CLAIM_NULL` of a claim. Any other number is refused as `NotEnum`.
#[derive(Clone, Copy, Debug, PartialEq, Eq)]
pub struct ArmZero<T> {
    pub body: T,
}

impl<T: Message> Message for ArmZero<T> {
    ghost form = { arm_zero T.form };

    ghost meaning = { λ union. inl (T.meaning union.body) };

    ghost sound = { arm_zero_is_proper T.form T.sound };
}

impl<'a, T: Wire<'a>> Wire<'a> for ArmZero<T> {
    fn read(cursor: &mut Cursor<'a>) -> Result<ArmZero<T>, XdrError> {
        let mut fork = cursor.fork();
        if fork.number32()? != 0 {
            return Err(XdrError::not_enum(cursor.place()));
        }
        let body = T::read(&mut fork)?;
        *cursor = fork;
        Ok(ArmZero { body })
    }

    fn put(&self, out: &mut Out) -> Result<(), NoMemory> {
        out.number32(0)?;
        self.body.put(out)?;
        Ok(())
    }

    fn fits(&self) -> bool {
        self.body.fits()
    }
}
