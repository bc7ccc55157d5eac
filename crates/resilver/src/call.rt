//! One call of a copy, which is sent until it is answered or given up.

ghost use Rattle.std.specs.Prelude.{◌≡◌};
ghost use Rattle.copy_rule.specs.Copies.{is_given_up};
ghost use Rattle.resilver.specs.Sends.{caller_for};

use cluster_model::{CallStage, Cred};

/// A call of a copy that goes out. The copy lends it (`Copy::lend`), as long as no other call is made of the copy.
#[derive(Clone, Copy, Debug, PartialEq, Eq)]
pub enum NextCall {
    /// The CREATE of the file under the name of this number, for this owner.
    MakesFile { name: u64, owner: Cred },
    /// The WRITE of the piece in hand to this file.
    WritesPiece { fileid: u64 },
    /// The READ of the source, this file, of a piece of 65,536 bytes from there on.
    ReadsSource { fileid: u64, at: u64 },
}

/// A call that goes out, to which server, and by which uid (RFC 5531, section 8.2).
#[derive(Clone, Copy, Debug, PartialEq, Eq)]
pub struct SentCall {
    pub server: u32,
    pub uid: u32,
    pub call: NextCall,
}

/// By which uid: the copy's own writes, 0 makes files and reads.
pub fn caller_for(copier: Cred, call: NextCall) -> u32
    ensures { result ≡ caller_for copier.0 call }
{
    match call {
        NextCall::WritesPiece { .. } => copier.0,
        _ => 0,
    }
}

/// It was given up.
pub fn is_given_up(stage: CallStage) -> bool
    ensures { result ≡ is_given_up stage }
{
    matches!(stage, CallStage::GivenUp)
}
