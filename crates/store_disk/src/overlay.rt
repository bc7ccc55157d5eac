//! Bytes put at a place of a vector, and the bytes from a place on.

ghost use Rattle.std.specs.Prelude.{◌≡◌, ◌+◌, ◌-◌, ◌^◌, ◌<◌, ◌≤◌, ◌++◌, length, take, drop, replicate, OnOk, OnErr, vec_len};
ghost use Rattle.cluster_model.specs.Content.{overlay};
ghost use Rattle.store_disk.specs.Disks.{resized};

use std::alloc::AllocError;

/// The bytes from the byte `at` on: none, if they end at or before it.
pub fn part_from(bytes: &[u8], at: u64) -> &[u8]
    ensures { result.now ≡ drop at bytes.now }
{
    &bytes[(at as usize).min(bytes.len())..]
}

/// Adds zeros up to the length `end`, where there are fewer bytes.
///
/// An error leaves the vector as it was.
fn grow_to(old: &mut Vec<u8>, end: usize) -> Result<(), AllocError>
    ensures ok { OnOk result (old.new.items ≡ old.old.items ++ replicate (end - length old.old.items) 0) }
    ensures err { OnErr result (old.new.items ≡ old.old.items) }
{
    if old.len() >= end {
        return Ok(());
    }
    old.resize(end, 0)
}

/// Puts the bytes at a place within the slice.
fn put_into(old: &mut [u8], at: usize, bytes: &[u8])
    requires { at + length bytes.now ≤ length old.old }
    ensures { old.new ≡ overlay old.old at bytes.now }
{
    old[at..at + bytes.len()].copy_from_slice(bytes);
}

/// Puts the bytes at the byte `at`, and fills a gap before them with zeros. There is no memory for an end past
/// `u64::MAX`.
///
/// An error leaves the vector as it was.
pub fn overlay_onto(old: &mut Vec<u8>, at: u64, bytes: &[u8]) -> Result<(), AllocError>
    ensures within { OnOk result (at + length bytes.now < 2 ^ 64) }
    ensures ok { OnOk result (old.new.items ≡ overlay old.old.items at bytes.now) }
    ensures err { OnErr result (old.new.items ≡ old.old.items) }
{
    let Some(end) = at.checked_add(bytes.len() as u64) else {
        return Err(AllocError);
    };
    if bytes.is_empty() {
        return Ok(());
    }
    grow_to(old, end as usize)?;
    put_into(old.as_mut_slice(), at as usize, bytes);
    Ok(())
}

/// Makes the vector `to` bytes long, with zeros behind its old end.
///
/// An error leaves the vector as it was.
pub fn resize_to(old: &mut Vec<u8>, to: u64) -> Result<(), AllocError>
    ensures ok { OnOk result (old.new.items ≡ resized old.old.items to) }
    ensures err { OnErr result (old.new.items ≡ old.old.items) }
{
    old.resize(to as usize, 0)
}
