//! Writes that are not told yet.

ghost use Rattle.std.specs.Prelude.{◌≡◌, ◌==◌, [], ◌∷◌, ◌++◌, length, OnOk};

use ff_xdr::NoMemory;
use std::alloc::Global;
use std::marker::Model;

/// The numbers of writes that are taken and not told yet, in order.
#[derive(Debug, Drop)]
pub struct Untold {
    numbers: Vec<usize>,
}

impl Model for Untold {
    ghost use Rattle.std.specs.Prelude.{List, ℕ};

    ghost Value = { List ℕ };

    ghost view = { λ u. u.numbers.items };
}

impl Untold {
    /// No writes; takes no memory.
    pub fn new(alloc: Global) -> Untold
        ensures { result ≡ [] }
    {
        Untold {
            numbers: Vec::new(alloc),
        }
    }

    /// One more.
    pub fn push(&mut self, number: usize) -> Result<(), NoMemory>
        ensures { OnOk result (self.new ≡ self.old ++ number ∷ []) }
    {
        self.numbers.push(number)?;
        Ok(())
    }

    /// All are told, or dropped.
    pub fn clear(&mut self)
        ensures { self.new ≡ [] }
    {
        self.numbers.clear();
    }

    /// There is none.
    pub fn is_empty(&self) -> bool
        ensures { result ≡ (length self.now == 0) }
    {
        self.numbers.is_empty()
    }

    /// The numbers.
    pub fn numbers(&self) -> &[usize]
        ensures { result.now ≡ self.now }
    {
        self.numbers.as_slice()
    }
}
