//! Lists of at most one value.

ghost use Rattle.ff_xdr.specs.Form.{Array};
ghost use Rattle.ff_xdr.specs.Proper.{array_is_proper};
ghost use Rattle.std.specs.Option.{option_map};
ghost use Rattle.nfs4_types.specs.AtMostOne.{listed_one};

use ff_xdr::{Cursor, Message, NoMemory, Out, Wire, XdrError};

/// A list of at most one value, which XDR writes `<1>` (RFC 4506, section 4.13). A count above 1 is
/// refused as `TooLong`.
#[derive(Clone, Copy, Debug, PartialEq, Eq)]
pub struct AtMostOne<T> {
    pub value: Option<T>,
}

impl<T: Message> Message for AtMostOne<T> {
    ghost form = { Array 1 T.form };

    ghost meaning = { λ one. listed_one (option_map T.meaning one.value) };

    ghost sound = { array_is_proper 1 T.form T.sound };
}

impl<'a, T: Wire<'a>> Wire<'a> for AtMostOne<T> {
    #[tactic(auto, unfolding(ff_xdr::specs::Reading::length_at))]
    fn read(cursor: &mut Cursor<'a>) -> Result<AtMostOne<T>, XdrError> {
        let mut fork = cursor.fork();
        let value = match fork.length(1)? {
            0 => None,
            _ => Some(T::read(&mut fork)?),
        };
        *cursor = fork;
        Ok(AtMostOne { value })
    }

    fn put(&self, out: &mut Out) -> Result<(), NoMemory> {
        match &self.value {
            None => {
                out.number32(0)?;
                Ok(())
            }
            Some(value) => {
                out.number32(1)?;
                value.put(out)?;
                Ok(())
            }
        }
    }

    fn fits(&self) -> bool {
        match &self.value {
            None => true,
            Some(value) => value.fits(),
        }
    }
}
