//! Fresh mirrors that come into the live list of a file.

ghost use Rattle.std.specs.Prelude.{◌≡◌, [], ◌∷◌, ◌++◌, length, nat_lt, if◌then◌else◌};

use crate::ids::{Mirror, MirrorId};
use arrayvec::ArrayVec;
use std::marker::Model;

/// A fresh mirror that holds a file's bytes, and the live mirror in whose place it comes; with none it joins the others.
#[derive(Clone, Copy, Debug, Default, PartialEq, Eq)]
pub struct SwappedIn {
    pub new: Mirror,
    pub old: Option<MirrorId>,
}

/// The fresh mirrors of one copy, in order: at most four.
#[derive(Debug, Drop)]
pub struct Targets {
    items: ArrayVec<SwappedIn, 4>,
}

impl Model for Targets {
    ghost use Rattle.std.specs.Prelude.{List};
    ghost use Rattle.cluster_model.specs.declared.targets.SwappedIn.{SwappedIn};

    ghost Value = { List SwappedIn };

    ghost view = { λ t. t.items.items };
}

impl Targets {
    /// No mirror.
    pub fn none() -> Targets
        ensures { result ≡ [] }
    {
        Targets {
            items: ArrayVec::new(),
        }
    }

    /// One more, at the end, where there are fewer than four.
    pub fn add(&mut self, target: SwappedIn) -> bool
        ensures added { result ≡ nat_lt (length self.old) 4 }
        ensures list { self.new ≡ (if result then self.old ++ target ∷ [] else self.old) }
    {
        if self.items.len() == 4 {
            return false;
        }
        self.items.push(target);
        true
    }

    /// All of them, in order.
    pub fn as_slice(&self) -> &[SwappedIn]
        ensures { result.now ≡ self.now }
    {
        self.items.as_slice()
    }
}
