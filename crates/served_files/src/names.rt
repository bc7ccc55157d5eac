//! The names of files.

ghost use Rattle.std.specs.Prelude.{◌≡◌, ◌<◌, ◌++◌, ◌∷◌, [], bytes_eq, length, position, None, OnOk, OnErr, IfSome};

use ff_xdr::NoMemory;
use indexmap::IndexSet;
use std::alloc::Global;
use std::marker::Model;

/// Names in the order in which they came, each once.
#[derive(Drop)]
pub struct FileNames {
    alloc: Global,
    names: IndexSet<Vec<u8>>,
}

impl Model for FileNames {
    ghost use Rattle.std.specs.Prelude.{List, ℕ, map, vec_items};

    ghost Value = { List (List ℕ) };

    ghost view = { λ n. map vec_items n.names.keys };
}

impl FileNames {
    /// No names. Takes no memory.
    pub fn new(alloc: Global) -> FileNames
        ensures { result ≡ [] }
    {
        FileNames {
            alloc,
            names: IndexSet::new(alloc),
        }
    }

    /// Where a name stands, from 0, if it is there.
    pub fn index_of(&self, name: &[u8]) -> Option<usize>
        ensures exact { result ≡ position (bytes_eq name.now) self.now }
        ensures within { IfSome result (λ index. index < length self.now) }
    {
        self.names.get_index_of(name)
    }

    /// Adds a name that is not there, behind the others. At an error nothing has changed.
    pub fn add(&mut self, name: &[u8]) -> Result<(), NoMemory>
        requires absent { position (bytes_eq name.now) self.old ≡ None }
        ensures ok { OnOk result (self.new ≡ self.old ++ name.now ∷ []) }
        ensures err { OnErr result (self.new ≡ self.old) }
    {
        let name = Vec::from_slice(self.alloc, name)?;
        self.names.insert(name)?;
        Ok(())
    }
}
