//! The generation that a file begins with, in XDR (RFC 4506, section 4.15).

ghost use Rattle.std.specs.Prelude.{◌≡◌, refl, IfOk};
ghost use Rattle.twin_log.specs.Twins.{generation_body, generation_form, generation_in, generation_value};

use ff_xdr::{Cursor, Message, NoMemory, Out, Wire, XdrError};
use gate_log::Gated;
use std::alloc::Global;

/// The kind of the body that says a generation.
const KIND: u32 = 5;

/// The bytes that a record has before its body.
const HEAD: [u8; 5] = [0; 5];

/// The body that says a generation.
#[derive(Clone, Copy)]
struct Generation {
    number: u64,
}

impl Message for Generation {
    ghost form = { generation_form };

    ghost meaning = { λ g. generation_value g.number };

    ghost sound = { refl };
}

impl<'a> Wire<'a> for Generation {
    fn read(cursor: &mut Cursor<'a>) -> Result<Generation, XdrError> {
        let mut fork = cursor.fork();
        let body = match fork.number32()? {
            5 => Generation {
                number: fork.number64()?,
            },
            _ => return Err(XdrError::not_enum(cursor.place())),
        };
        *cursor = fork;
        Ok(body)
    }

    fn put(&self, out: &mut Out) -> Result<(), NoMemory> {
        (KIND, self.number).put(out)
    }

    fn fits(&self) -> bool {
        self.number.fits()
    }
}

/// The generation that a body says, and 0 of any other body.
pub(crate) fn generation_in(body: &[u8]) -> u64
    ensures { result ≡ generation_in body.now }
{
    match Generation::from_bytes(body) {
        Ok(generation) => generation.number,
        Err(_) => 0,
    }
}

/// The record of a generation.
pub(crate) fn generation_record(alloc: Global, number: u64) -> Result<Gated, NoMemory>
    ensures { IfOk result (λ gated. gated ≡ generation_body number) }
{
    let mut out = Out::new(alloc);
    out.raw(&HEAD)?;
    Generation { number }.put(&mut out)?;
    Gated::framed(out)
}
