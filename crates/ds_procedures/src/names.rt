//! The names of the files in the root.

ghost use Rattle.std.specs.Prelude.{◌≡◌, [], ◌∷◌, ◌++◌, length, None, OnOk, OnErr, IfSome, ◌<◌, option_copied, slice_get};
ghost use Rattle.cluster_model.specs.Server.{index_of};

use ff_xdr::NoMemory;
use indexmap::IndexSet;
use std::alloc::Global;
use std::marker::Model;

/// Names in the order in which they came, each once. Clauses see them as a list.
#[derive(Drop)]
pub struct Names {
    alloc: Global,
    names: IndexSet<Vec<u8>>,
}

impl Model for Names {
    ghost use Rattle.std.specs.Prelude.{List, ℕ, map, vec_items};

    ghost Value = { List (List ℕ) };

    ghost view = { λ n. map vec_items n.names.keys };
}

impl Names {
    /// No names. Takes no memory.
    pub fn new(alloc: Global) -> Names
        ensures { result ≡ [] }
    {
        Names {
            alloc,
            names: IndexSet::new(alloc),
        }
    }

    /// Where a name stands, from 0, if it is there.
    pub fn index_of(&self, name: &[u8]) -> Option<usize>
        ensures exact { result ≡ index_of self.now name.now }
        ensures within { IfSome result (λ index. index < length self.now) }
    {
        self.names.get_index_of(name)
    }

    /// The name that stands at an index, from 0, where there is one.
    pub fn at(&self, index: usize) -> Option<&[u8]>
        ensures { option_copied result ≡ slice_get self.now index }
    {
        let name = self.names.get_index(index)?;
        Some(name)
    }

    /// Adds a name that is not there, behind the others. At an error nothing has changed.
    pub fn add(&mut self, name: &[u8]) -> Result<(), NoMemory>
        requires absent { index_of self.old name.now ≡ None }
        ensures ok { OnOk result (self.new ≡ self.old ++ name.now ∷ []) }
        ensures err { OnErr result (self.new ≡ self.old) }
    {
        let name = Vec::from_slice(self.alloc, name)?;
        self.names.insert(name)?;
        Ok(())
    }
}
