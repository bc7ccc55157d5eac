//! One open.

ghost use Rattle.std.specs.Prelude.{◌≡◌};
ghost use Rattle.open_state.specs.Opens.{again, next_seqid, stateid_of, is_named_by};

use cluster_model::FileId;
use ff_xdr::NoMemory;
use nfs4_types::{Stateid, open_stateid};
use thiserror::Error;

/// The most files that a client has open at a time.
pub const MAX_OPENS: usize = 64;

/// The last number of an open, and the last seqid of a stateid.
pub const LAST_NUMBER: u32 = 4_294_967_295;

/// A file that a client has open (RFC 8881, sections 8.2.1 and 18.16).
#[derive(Clone, Copy, Debug, PartialEq, Eq)]
pub struct Open {
    pub file: FileId,
    /// Of all the server's opens, from 1; none is given twice.
    pub number: u32,
    /// That of its stateid as it was given last: 1 at first, and 1 again behind 4,294,967,295 (section 8.2.2).
    pub seqid: u32,
}

impl Open {
    /// Its stateid: which state it is are the file, 0, and the number (section 8.2.2).
    pub fn stateid(self) -> Stateid
        ensures { result ≡ stateid_of self }
    {
        Stateid {
            seqid: self.seqid,
            ..open_stateid(self.file.0, self.number)
        }
    }

    /// A stateid names this open, whatever its seqid is.
    pub fn is_named_by(self, stateid: Stateid) -> bool
        ensures { result ≡ is_named_by stateid self }
    {
        stateid.other == open_stateid(self.file.0, self.number).other
    }

    /// The same with its next seqid.
    pub(crate) fn again(self) -> Open
        ensures { result ≡ again self }
    {
        Open {
            seqid: next_seqid(self.seqid),
            ..self
        }
    }
}

/// The seqid behind one: 1 again behind the last (RFC 8881, section 8.2.2).
pub fn next_seqid(seqid: u32) -> u32
    ensures { result ≡ next_seqid seqid }
{
    if seqid == LAST_NUMBER { 1 } else { seqid + 1 }
}

/// Why a file is not opened. Nothing has changed then.
#[derive(Clone, Copy, Debug, PartialEq, Eq, Error)]
pub enum OpenFault {
    /// The client has `MAX_OPENS` others open.
    #[error("the client has too many files open")]
    TooMany,
    /// The server has given the last number.
    #[error("the numbers of opens are spent")]
    Spent,
    #[error(transparent)]
    NoMemory(#[from] NoMemory),
}
