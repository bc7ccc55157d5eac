//! What `next` gives.

ghost use Rattle.std.specs.Prelude.{◌≡◌};
ghost use Rattle.nfs4_compound.specs.Operations.{verdict_of};

use ff_xdr::{XdrError, XdrWhy};

/// What stands next among the operations of a compound.
#[derive(Clone, Copy)]
pub enum NextOp<O> {
    /// An operation.
    Op(O),
    /// The operation with this number is not built, or an arm of a union in it.
    Unread(u32),
    /// The operation is not in its form. The place counts from the first byte of the compound's arguments.
    Bad(XdrError),
    /// All operations were read.
    End,
}

/// Why there is no further operation.
#[derive(Clone, Copy, Debug, PartialEq, Eq)]
pub enum Stop {
    /// All operations were read. The place of the bytes that are left behind the last, where some are.
    End(Option<usize>),
    /// The operation with this number is not built, or an arm of a union in it.
    Unread(u32),
    /// The operation is not in its form. The place counts from the first byte of the compound's arguments.
    Bad(XdrError),
}

impl Stop {
    /// What the operations are judged to be by their end: what is not built counts as good, and bytes that
    /// are left behind the last are refused as `Rest`.
    pub fn verdict(self) -> Result<(), XdrError>
        ensures { result ≡ verdict_of self }
    {
        match self {
            Stop::End(None) | Stop::Unread(_) => Ok(()),
            Stop::End(Some(place)) => Err(XdrError {
                place,
                why: XdrWhy::Rest,
            }),
            Stop::Bad(error) => Err(error),
        }
    }
}
