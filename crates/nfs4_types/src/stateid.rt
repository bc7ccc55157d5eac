//! Stateids.

ghost use Rattle.std.specs.Prelude.{◌≡◌, refl};
ghost use Rattle.nfs4_types.specs.Stateids.{stateid4, stateid4_value, three_words, layout_stateid_of, open_stateid_of, read_stateid_of};

use ff_xdr::{Cursor, Message, NoMemory, Out, Wire, XdrError};

/// A stateid, `stateid4` (RFC 8881, section 3.3.12).
#[derive(Clone, Copy, Debug, PartialEq, Eq)]
pub struct Stateid {
    /// How often the state has changed.
    pub seqid: u32,
    /// Which state it is.
    pub other: [u8; 12],
}

impl Message for Stateid {
    ghost form = { stateid4 };

    ghost meaning = { stateid4_value };

    ghost sound = { refl };
}

impl<'a> Wire<'a> for Stateid {
    fn read(cursor: &mut Cursor<'a>) -> Result<Stateid, XdrError> {
        let (seqid, other) = <(u32, [u8; 12])>::read(cursor)?;
        Ok(Stateid { seqid, other })
    }

    fn put(&self, out: &mut Out) -> Result<(), NoMemory> {
        (self.seqid, self.other).put(out)
    }

    fn fits(&self) -> bool {
        (self.seqid, self.other).fits()
    }
}

/// Three words, the highest byte of each first.
#[tactic(auto, unfolding(ff_xdr::specs::Form::word))]
fn words(first: u32, second: u32, third: u32) -> [u8; 12]
    ensures { result ≡ three_words first second third }
{
    let mut bytes = [0; 12];
    bytes[..4].copy_from_slice(&first.to_be_bytes());
    bytes[4..8].copy_from_slice(&second.to_be_bytes());
    bytes[8..].copy_from_slice(&third.to_be_bytes());
    bytes
}

/// The stateid of a layout: which state it is are the file, the uid that the layout was granted under,
/// and 0.
pub fn layout_stateid(file: u32, uid: u32, seqid: u32) -> Stateid
    ensures { result ≡ layout_stateid_of file uid seqid }
{
    Stateid {
        seqid,
        other: words(file, uid, 0),
    }
}

/// The first stateid of an open: which state it is are the file, 0, and the open's number, which is at
/// least 1. Its seqid is 1.
pub fn open_stateid(file: u32, n: u32) -> Stateid
    ensures { result ≡ open_stateid_of file n }
{
    Stateid {
        seqid: 1,
        other: words(file, 0, n),
    }
}

/// The stateid of a layout for reading: which state it is are the file, the uid that the file belongs to,
/// and 1.
pub fn read_stateid(file: u32, uid: u32, seqid: u32) -> Stateid
    ensures { result ≡ read_stateid_of file uid seqid }
{
    Stateid {
        seqid,
        other: words(file, uid, 1),
    }
}
