//! Lists of bytes, which several owners may share.

ghost use Rattle.std.specs.Prelude.{◌≡◌, IfOk};

use crate::error::NoMemory;
use std::alloc::Global;
use std::fmt;
use std::marker::Model;
use std::rc::Rc;

/// Where the bytes of a list are.
#[derive(Drop)]
enum Store {
    /// With their one owner.
    Own(Vec<u8>),
    /// With all who share them.
    Shared(Rc<Vec<u8>>),
}

/// A list of bytes.
#[derive(Drop)]
pub struct Data {
    store: Store,
}

impl Model for Data {
    ghost use Rattle.std.specs.Prelude.{List, ℕ};
    ghost use Rattle.ff_xdr.specs.Stores.{bytes_in};

    ghost Value = { List ℕ };

    ghost view = { λ d. bytes_in d.store };
}

impl Data {
    /// A copy of the bytes.
    pub fn of(alloc: Global, bytes: &[u8]) -> Result<Data, NoMemory>
        ensures { IfOk result (λ copy. copy ≡ bytes.now) }
    {
        Ok(Data::from_vec(Vec::from_slice(alloc, bytes)?))
    }

    /// The vector's bytes; takes no memory.
    pub fn from_vec(bytes: Vec<u8>) -> Data
        ensures { result ≡ bytes.items }
    {
        Data {
            store: Store::Own(bytes),
        }
    }

    /// A copy of the bytes that may be shared (`share`).
    pub fn to_share(alloc: Global, bytes: &[u8]) -> Result<Data, NoMemory>
        ensures { IfOk result (λ copy. copy ≡ bytes.now) }
    {
        let bytes = Vec::from_slice(alloc, bytes)?;
        match Rc::new(alloc, bytes) {
            Ok(shared) => Ok(Data {
                store: Store::Shared(shared),
            }),
            Err(_) => Err(NoMemory),
        }
    }

    /// The same bytes for another owner. They are not copied where they were made to be shared.
    pub fn share(&self, alloc: Global) -> Result<Data, NoMemory>
        ensures { IfOk result (λ other. other ≡ self.now) }
    {
        match &self.store {
            Store::Own(bytes) => Data::of(alloc, bytes.as_slice()),
            Store::Shared(bytes) => Ok(Data {
                store: Store::Shared(bytes.clone()?),
            }),
        }
    }

    /// The bytes.
    pub fn bytes(&self) -> &[u8]
        ensures { result.now ≡ self.now }
    {
        match &self.store {
            Store::Own(bytes) => bytes.as_slice(),
            Store::Shared(bytes) => bytes.as_ref().as_slice(),
        }
    }
}

impl fmt::Debug for Data {
    fn fmt<W: fmt::Write>(&self, f: &mut fmt::Formatter<W>) -> fmt::Result {
        f.debug_list().entries(self.bytes()).finish()
    }
}
