//! How a read ends.

ghost use Rattle.std.specs.Prelude.{◌≡◌, ◌<◌, [], ◌∷◌, ◌++◌, length};

use arrayvec::ArrayVec;
use cluster_model::{LeftCause, MirrorId};
use ff_xdr::Data;
use std::marker::Model;

/// A mirror did not give the bytes: the number of the READ that went to it, and what came of it.
#[derive(Clone, Copy, Debug, PartialEq, Eq)]
pub struct Failure {
    pub id: MirrorId,
    pub xid: u32,
    pub cause: LeftCause,
}

impl Default for Failure {
    /// What a place has that no failure is in.
    fn default() -> Failure {
        Failure {
            id: MirrorId::default(),
            xid: 0,
            cause: LeftCause::Timeouts,
        }
    }
}

/// The mirrors of one read that did not give the bytes, in order: at most four.
#[derive(Debug, Drop)]
pub struct Failures {
    items: ArrayVec<Failure, 4>,
}

impl Model for Failures {
    ghost use Rattle.std.specs.Prelude.{List};
    ghost use Rattle.mds_io.specs.declared.read_end.Failure.{Failure};

    ghost Value = { List Failure };

    ghost view = { λ f. f.items.items };
}

impl Failures {
    /// No mirror.
    pub(crate) fn none() -> Failures
        ensures { result ≡ [] }
    {
        Failures {
            items: ArrayVec::new(),
        }
    }

    /// One more, at the end.
    pub(crate) fn add(&mut self, failure: Failure)
        requires { length self.old < 4 }
        ensures { self.new ≡ self.old ++ failure ∷ [] }
    {
        self.items.push(failure);
    }

    /// The same once more.
    pub(crate) fn copied(&self) -> Failures
        ensures { result ≡ self.now }
    {
        let mut items = ArrayVec::new();
        // These are at most four, so they fit.
        let _fits = items.try_extend_from_slice(self.items.as_slice());
        Failures { items }
    }

    /// All of them, in order.
    pub fn as_slice(&self) -> &[Failure]
        ensures { result.now ≡ self.now }
    {
        self.items.as_slice()
    }
}

/// How a read ends.
#[derive(Debug, Drop)]
pub enum ReadEnd {
    /// A mirror gave these bytes, and said whether the file ends behind them.
    Bytes { eof: bool, bytes: Data },
    /// Each mirror failed.
    AllFailed { failures: Failures },
}
