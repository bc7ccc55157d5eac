//! Operations that are kept to go on later.

ghost use Rattle.std.specs.Prelude.{◌≡◌, IfOk};

use crate::Ops;
use crate::all_ops::AllOps;
use ff_xdr::{Data, NoMemory};
use std::alloc::Global;
use std::marker::Model;

/// The operations of a compound that are left, with the bytes in which they stand: a compound that waits goes on with them.
#[derive(Drop)]
pub struct KeptOps {
    bytes: Data,
    at: usize,
    left: u32,
}

impl Model for KeptOps {
    ghost use Rattle.std.specs.Prelude.{◌≤◌, length};
    ghost use Rattle.nfs4_compound.specs.Args.{argop4};
    ghost use Rattle.nfs4_compound.specs.Operations.{OpList};
    ghost use Rattle.nfs4_compound.specs.AllOps.{served_ops};

    ghost Value = { OpList argop4 };

    ghost view = { λ o. served_ops o.left o.bytes o.at };

    ghost invariant = { λ o. o.at ≤ length o.bytes };
}

impl KeptOps {
    /// The operations, one by one.
    pub fn ops(&self) -> Ops<'_>
        ensures { result ≡ self.now }
    {
        Ops {
            all: AllOps {
                bytes: self.bytes.bytes(),
                at: self.at,
                left: self.left,
            },
        }
    }
}

impl<'a> Ops<'a> {
    /// A copy of what is left, with all of the compound's arguments. Takes memory.
    pub fn keep(&self, alloc: Global) -> Result<KeptOps, NoMemory>
        ensures { IfOk result (λ kept. kept ≡ self.now) }
    {
        let bytes = Data::of(alloc, self.all.bytes)?;
        Ok(KeptOps {
            bytes,
            at: self.all.at,
            left: self.all.left,
        })
    }
}
