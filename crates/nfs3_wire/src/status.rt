//! The status of a result.

ghost use Rattle.std.specs.Prelude.{◌≡◌, refl};
ghost use Rattle.nfs3_wire.specs.Status.{refusal, stat_number, IsRefusalNumbered};

use ff_xdr::{Cursor, Message, NoMemory, Out, Wire, XdrError};

/// The status of a result (RFC 1813, section 2.6, `nfsstat3`).
#[derive(Clone, Copy, Debug, PartialEq, Eq)]
pub enum Stat3 {
    Ok,
    NoEnt,
    Io,
    Acces,
    Exist,
    NotDir,
    IsDir,
    Inval,
    Fbig,
    NoSpc,
    NameTooLong,
    Stale,
    BadHandle,
    NotSync,
    NotSupp,
    ServerFault,
    Jukebox,
}

impl Stat3 {
    /// The number of the status.
    pub fn number(self) -> u32
        ensures { result ≡ stat_number self }
    {
        match self {
            Stat3::Ok => 0,
            Stat3::NoEnt => 2,
            Stat3::Io => 5,
            Stat3::Acces => 13,
            Stat3::Exist => 17,
            Stat3::NotDir => 20,
            Stat3::IsDir => 21,
            Stat3::Inval => 22,
            Stat3::Fbig => 27,
            Stat3::NoSpc => 28,
            Stat3::NameTooLong => 63,
            Stat3::Stale => 70,
            Stat3::BadHandle => 10001,
            Stat3::NotSync => 10002,
            Stat3::NotSupp => 10004,
            Stat3::ServerFault => 10006,
            Stat3::Jukebox => 10008,
        }
    }
}

// The status of a refused call: OK is not in its form.
impl Message for Stat3 {
    ghost form = { refusal };

    ghost meaning = { stat_number };

    ghost sound = { refl };
}

/// The refusal with this number.
fn refusal_of(number: u32) -> Option<Stat3>
    ensures { IsRefusalNumbered number result }
{
    Some(match number {
        2 => Stat3::NoEnt,
        5 => Stat3::Io,
        13 => Stat3::Acces,
        17 => Stat3::Exist,
        20 => Stat3::NotDir,
        21 => Stat3::IsDir,
        22 => Stat3::Inval,
        27 => Stat3::Fbig,
        28 => Stat3::NoSpc,
        63 => Stat3::NameTooLong,
        70 => Stat3::Stale,
        10001 => Stat3::BadHandle,
        10002 => Stat3::NotSync,
        10004 => Stat3::NotSupp,
        10006 => Stat3::ServerFault,
        10008 => Stat3::Jukebox,
        _ => return None,
    })
}

impl<'a> Wire<'a> for Stat3 {
    fn read(cursor: &mut Cursor<'a>) -> Result<Stat3, XdrError> {
        let mut fork = cursor.fork();
        match refusal_of(fork.number32()?) {
            None => Err(XdrError::not_enum(cursor.place())),
            Some(status) => {
                *cursor = fork;
                Ok(status)
            }
        }
    }

    fn put(&self, out: &mut Out) -> Result<(), NoMemory> {
        self.number().put(out)
    }

    fn fits(&self) -> bool {
        *self != Stat3::Ok
    }
}
