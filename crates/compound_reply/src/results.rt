//! The results of a compound, as they come.

ghost use Rattle.std.specs.Prelude.{◌≡◌, ◌+◌, ◌<◌, ◌≤◌, ◌^◌, [], ◌∷◌, ◌++◌, length, IfOk, OnOk, OnErr};
ghost use Rattle.ff_xdr.specs.Form.{Fits, spelling};
ghost use Rattle.nfs4_types.specs.Status.{stat4_number};
ghost use Rattle.nfs4_compound.specs.Results.{resop4, op_res_value};
ghost use Rattle.nfs4_compound.specs.Compounds.{compound4_res};
ghost use Rattle.compound_reply.specs.Replied.{results_text};

use ff_xdr::{NoMemory, Out, Wire};
use nfs4_compound::{OpRes, Tag4};
use nfs4_types::Stat4;
use std::alloc::Global;
use std::marker::Model;

/// The results of a compound so far (RFC 8881, section 16.2.4). Some come long after those before them, so they are kept as
/// their bytes, and nothing of a result has to stand until the compound ends.
#[derive(Drop)]
pub struct Results {
    alloc: Global,
    bytes: Out,
    count: u32,
}

impl Model for Results {
    ghost use Rattle.compound_reply.specs.Replied.{ResultList, AreResults, results_in};

    ghost Value = { ResultList };

    ghost view = { λ r. results_in r.bytes r.count };

    ghost invariant = { λ r. AreResults r.bytes r.count };
}

impl Results {
    /// None so far; takes no memory.
    pub fn new(alloc: Global) -> Results
        ensures { result ≡ [] }
    {
        Results {
            alloc,
            bytes: Out::new(alloc),
            count: 0,
        }
    }

    /// One result more. Takes memory; where it is wanted nothing has changed.
    pub fn push(&mut self, res: &OpRes<'_>) -> Result<(), NoMemory>
        requires few { length self.old + 1 < 2 ^ 32 }
        requires fits { Fits resop4 (op_res_value res.now) }
        ensures pushed { OnOk result (self.new ≡ self.old ++ op_res_value res.now ∷ []) }
        ensures unchanged { OnErr result (self.new ≡ self.old) }
    {
        res.write(&mut self.bytes)?;
        self.count += 1;
        Ok(())
    }

    /// How many there are.
    pub fn len(&self) -> u32
        ensures { result ≡ length self.now }
    {
        self.count
    }

    /// How many bytes these results have alone, without the compound's status, tag and count.
    pub fn size(&self) -> usize
        ensures { result ≡ length (results_text self.now) }
    {
        self.bytes.len()
    }

    /// The compound's result, `COMPOUND4res`: the status, the tag, and these results (RFC 8881, section 16.2.4). Takes memory.
    pub fn compound(&self, status: Stat4, tag: &str) -> Result<Vec<u8>, NoMemory>
        requires { length tag.now ≤ 1024 }
        ensures { IfOk result (λ bytes. bytes.items ≡ spelling compound4_res (stat4_number status, (tag.now, self.now))) }
    {
        let count = self.len();
        let mut out = Out::new(self.alloc);
        (status, Tag4 { text: tag }, count).put(&mut out)?;
        out.raw(self.bytes.bytes())?;
        Ok(out.into_bytes())
    }
}
