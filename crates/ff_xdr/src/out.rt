//! Bytes that are collected item by item.

ghost use Rattle.std.specs.Prelude.{◌≡◌, ◌↔◌, ◌<◌, ◌^◌, [], ◌++◌, length, take, IsTrue, OnOk, OnErr};
ghost use Rattle.ff_xdr.specs.Form.{word, long, padded, Boolean, spelling};
ghost use Rattle.ff_xdr.specs.Calls.{Puts};

use crate::error::NoMemory;
use crate::slices::pad_len;
use std::alloc::{AllocError, Global};
use std::marker::Model;

const ZEROS: [u8; 4] = [0; 4];

/// Appends bytes and zeros up to a multiple of four.
#[tactic(auto, unfolding(crate::specs::Form::padded))]
fn push_padded(out: &mut Vec<u8>, bytes: &[u8]) -> Result<(), AllocError>
    ensures ok { OnOk result (out.new.items ≡ out.old.items ++ padded bytes.now) }
    ensures err { OnErr result (out.new.items ≡ out.old.items) }
{
    let mark = out.len();
    out.extend_from_slice(bytes)?;
    if out
        .extend_from_slice(&ZEROS[..pad_len(bytes.len())])
        .is_err()
    {
        out.truncate(mark);
        return Err(AllocError);
    }
    Ok(())
}

/// Collects bytes. Each call appends its item's spelling; at an error all is as before.
#[derive(Debug, Drop)]
pub struct Out {
    bytes: Vec<u8>,
}

impl Model for Out {
    ghost use Rattle.std.specs.Prelude.{List, ℕ};

    ghost Value = { List ℕ };

    ghost view = { λ o. o.bytes.items };
}

impl Out {
    /// Nothing so far; takes no memory.
    pub fn new(alloc: Global) -> Out
        ensures { result ≡ [] }
    {
        Out {
            bytes: Vec::new(alloc),
        }
    }

    /// An unsigned integer (RFC 4506, section 4.2).
    #[tactic(auto, unfolding(crate::specs::Form::word))]
    pub fn number32(&mut self, n: u32) -> Result<(), NoMemory>
        ensures { Puts self.old result self.new (word n) }
    {
        self.bytes.extend_from_slice(&n.to_be_bytes())?;
        Ok(())
    }

    /// An unsigned hyper integer (RFC 4506, section 4.5).
    #[tactic(auto, unfolding(crate::specs::Form::long))]
    pub fn number64(&mut self, n: u64) -> Result<(), NoMemory>
        ensures { Puts self.old result self.new (long n) }
    {
        self.bytes.extend_from_slice(&n.to_be_bytes())?;
        Ok(())
    }

    /// A boolean (RFC 4506, section 4.4).
    pub fn flag(&mut self, b: bool) -> Result<(), NoMemory>
        ensures { Puts self.old result self.new (spelling Boolean b) }
    {
        if b {
            self.number32(1)
        } else {
            self.number32(0)
        }
    }

    /// Opaque data of a length that both sides know (RFC 4506, section 4.9): the bytes, and zeros up
    /// to a multiple of four.
    pub fn fixed(&mut self, bytes: &[u8]) -> Result<(), NoMemory>
        ensures { Puts self.old result self.new (padded bytes.now) }
    {
        push_padded(&mut self.bytes, bytes)?;
        Ok(())
    }

    /// Opaque data of variable length (RFC 4506, section 4.10): the length, and the bytes as of `fixed`.
    pub fn opaque(&mut self, bytes: &[u8]) -> Result<(), NoMemory>
        requires { length bytes.now < 2 ^ 32 }
        ensures { Puts self.old result self.new (word (length bytes.now) ++ padded bytes.now) }
    {
        let mark = self.bytes.len();
        self.number32(bytes.len() as u32)?;
        if push_padded(&mut self.bytes, bytes).is_err() {
            self.bytes.truncate(mark);
            return Err(NoMemory);
        }
        Ok(())
    }

    /// Bytes as they are, with no padding.
    pub fn raw(&mut self, bytes: &[u8]) -> Result<(), NoMemory>
        ensures { Puts self.old result self.new bytes.now }
    {
        self.bytes.extend_from_slice(bytes)?;
        Ok(())
    }

    /// Makes room for this many bytes more, so that appending them takes no memory; nothing that was collected changes.
    pub fn reserve(&mut self, more: usize) -> Result<(), NoMemory>
        ensures { self.new ≡ self.old }
    {
        self.bytes.reserve(more)?;
        Ok(())
    }

    /// Cuts what was collected back to its first `length` bytes.
    pub fn truncate(&mut self, length: usize)
        ensures { self.new ≡ take length self.old }
    {
        self.bytes.truncate(length);
    }

    /// How many bytes were collected.
    pub fn len(&self) -> usize
        ensures { result ≡ length self.now }
    {
        self.bytes.len()
    }

    /// Nothing was collected.
    pub fn is_empty(&self) -> bool
        ensures { IsTrue result ↔ (self.now ≡ []) }
    {
        self.bytes.is_empty()
    }

    /// What was collected.
    pub fn bytes(&self) -> &[u8]
        ensures { result.now ≡ self.now }
    {
        self.bytes.as_slice()
    }

    /// What was collected, given away.
    pub fn into_bytes(self) -> Vec<u8>
        ensures { result.items ≡ self }
    {
        self.bytes
    }
}
