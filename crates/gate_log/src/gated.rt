//! A body that is ready to be written to a log.

ghost use Rattle.std.specs.Prelude.{◌≡◌, ◌+◌, ◌^◌, ◌<◌, ◌≤◌, ◌∷◌, ◌++◌, IfOk, drop, length};
ghost use Rattle.ff_xdr.specs.Form.{word};
ghost use Rattle.gate_log.specs.Bodies.{with_gates};

use ff_xdr::{NoMemory, Out};
use std::alloc::Global;
use std::marker::Model;

/// How many bytes stand before a body: the gate byte, and its length in four.
pub const HEAD: usize = 5;

/// The bytes of a record with this body, and the closed gate behind it.
#[tactic(auto, unfolding(ff_xdr::specs::Form::word))]
fn with_gates(alloc: Global, body: &[u8]) -> Result<Vec<u8>, NoMemory>
    requires { length body.now < 2 ^ 32 }
    ensures { IfOk result (λ bytes. bytes.items ≡ with_gates body.now) }
{
    let mut bytes = Vec::with_capacity(alloc, body.len() + HEAD + 1)?;
    bytes.push(1)?;
    bytes.extend_from_slice(&(body.len() as u32).to_be_bytes())?;
    bytes.extend_from_slice(body)?;
    bytes.push(0)?;
    Ok(bytes)
}

/// Puts an open gate and the length of a body in the first five bytes.
#[tactic(auto, unfolding(ff_xdr::specs::Form::word))]
fn put_head(bytes: &mut [u8], count: u32)
    requires { 5 ≤ length bytes.old }
    ensures { bytes.new ≡ (1 ∷ word count) ++ drop 5 bytes.old }
{
    bytes[0] = 1;
    bytes[1..HEAD].copy_from_slice(&count.to_be_bytes());
}

/// A body that is ready to be written: with its gate and its length before it, and a closed gate behind it. Clauses see
/// it as the body.
#[derive(Drop)]
pub struct Gated {
    bytes: Vec<u8>,
}

impl Model for Gated {
    ghost use Rattle.std.specs.Prelude.{List, ℕ};

    ghost Value = { List ℕ };

    ghost use Rattle.gate_log.specs.Bodies.{HasGatedBody, body_in};

    ghost view = { λ gated. body_in gated.bytes.items };

    ghost invariant = { λ gated. HasGatedBody gated.bytes.items };
}

impl Gated {
    /// A copy of the body. Its memory is taken at once.
    pub fn new(alloc: Global, body: &[u8]) -> Result<Gated, NoMemory>
        requires { length body.now < 2 ^ 32 }
        ensures { IfOk result (λ gated. gated ≡ body.now) }
    {
        let bytes = with_gates(alloc, body)?;
        Ok(Gated { bytes })
    }

    /// The body that was collected behind five bytes of room, which its gate and its length take. Nothing is copied where
    /// there is room for one byte more (`Out::reserve`).
    pub fn framed(out: Out) -> Result<Gated, NoMemory>
        requires room { 5 ≤ length out }
        requires short { length out < 2 ^ 32 + 5 }
        ensures { IfOk result (λ gated. gated ≡ drop 5 out) }
    {
        let mut bytes = out.into_bytes();
        let count = (bytes.len() - HEAD) as u32;
        bytes.push(0)?;
        put_head(bytes.as_mut_slice(), count);
        Ok(Gated { bytes })
    }

    /// How many bytes the body has.
    pub fn len(&self) -> u32
        ensures { result ≡ length self.now }
    {
        let bytes = &self.bytes;
        (bytes.len() - HEAD - 1) as u32
    }

    /// The bytes of the record, and the closed gate behind it.
    pub fn bytes(&self) -> &[u8]
        ensures bytes { result.now ≡ with_gates self.now }
        ensures count { length result.now ≡ 6 + length self.now }
        ensures short { length self.now < 2 ^ 32 }
    {
        &self.bytes
    }
}
