//! The bytes of a write.

ghost use Rattle.cluster_model.specs.declared.limits.TheConstants.{PIECE_SIZE};
ghost use Rattle.std.specs.Prelude.{◌≡◌, ◌≤◌, length, IfOk};

use ff_xdr::{Data, NoMemory};
use std::alloc::Global;
use std::marker::Model;

/// The bytes of a write: 1 to 65,536.
#[derive(Debug, Drop)]
pub struct WriteBytes {
    bytes: Data,
}

impl Model for WriteBytes {
    ghost use Rattle.std.specs.Prelude.{List, ℕ, ◌≤◌, length};
    ghost use Rattle.cluster_model.specs.declared.limits.TheConstants.{PIECE_SIZE};

    ghost Value = { List ℕ };

    ghost view = { λ w. w.bytes };

    ghost invariant = { λ w. (1 ≤ length w.bytes) × (length w.bytes ≤ PIECE_SIZE) };
}

impl WriteBytes {
    /// A copy of 1 to 65,536 bytes, which may be shared.
    pub fn of(alloc: Global, bytes: &[u8]) -> Result<WriteBytes, NoMemory>
        requires some { 1 ≤ length bytes.now }
        requires few { length bytes.now ≤ PIECE_SIZE }
        ensures { IfOk result (λ copy. copy ≡ bytes.now) }
    {
        let bytes = Data::to_share(alloc, bytes)?;
        Ok(WriteBytes { bytes })
    }

    /// The same bytes for another owner. They are not copied.
    pub fn share(&self, alloc: Global) -> Result<WriteBytes, NoMemory>
        ensures { IfOk result (λ other. other ≡ self.now) }
    {
        let bytes = self.bytes.share(alloc)?;
        Ok(WriteBytes { bytes })
    }

    /// The bytes, for who shares them (`Data::share`).
    pub fn data(&self) -> &Data
        ensures { result.now ≡ self.now }
    {
        &self.bytes
    }

    /// The bytes.
    pub fn bytes(&self) -> &[u8]
        ensures bytes { result.now ≡ self.now }
        ensures some { 1 ≤ length self.now }
        ensures few { length self.now ≤ PIECE_SIZE }
    {
        self.bytes.bytes()
    }
}
