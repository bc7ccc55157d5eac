//! What a crash leaves of a disk in memory.

ghost use Rattle.std.specs.Prelude.{◌≡◌, ◌/◌, ◌<◌, ◌∷◌, IfOk, OnOk, drop, length, take};
ghost use Rattle.cluster_model.specs.Content.{overlay};
ghost use Rattle.store_disk.specs.Disks.{IsImage};
ghost use Rattle.store_disk.specs.MemoryDisks.{life_after};
ghost use Rattle.store_disk.specs.Crashes.{left_behind, left_by, seen_behind, tear_of, torn_cut, torn_piece};

use crate::overlay::{overlay_onto, part_from, resize_to};
use crate::recorded::Recorded;
use ff_xdr::NoMemory;
use std::alloc::{AllocError, Global};

/// What a crash makes of each change since the last sync.
#[derive(Clone, Copy)]
pub enum Tear {
    /// It is not done.
    AsBefore,
    /// It is done.
    AsWritten,
    /// The first half of what was written is there.
    FirstHalf,
    /// Each byte that was written is 255.
    AllOnes,
}

impl Tear {
    /// The tear of a number, in the order above.
    pub fn of(choice: u32) -> Tear
        requires { choice < 4 }
        ensures { result ≡ tear_of choice }
    {
        match choice {
            0 => Tear::AsBefore,
            1 => Tear::AsWritten,
            2 => Tear::FirstHalf,
            _ => Tear::AllOnes,
        }
    }
}

/// At most `count` of the bytes from the byte `at` on.
fn part_of(bytes: &[u8], at: u64, count: u64) -> &[u8]
    ensures { result.now ≡ take count (drop at bytes.now) }
{
    let found = part_from(bytes, at);
    &found[..found.len().min(count as usize)]
}

/// Puts what a tear leaves of a write of `count` bytes at the byte `at`. `piece` was written, or stood there.
fn tear_write(
    alloc: Global,
    left: &mut Vec<u8>,
    tear: Tear,
    at: u64,
    count: u64,
    piece: &[u8],
) -> Result<(), AllocError>
    ensures { OnOk result (left.new.items ≡ overlay left.old.items at (torn_piece tear count piece.now)) }
{
    match tear {
        Tear::AsBefore => Ok(()),
        Tear::AsWritten => overlay_onto(left, at, piece),
        Tear::FirstHalf => overlay_onto(left, at, part_of(piece, 0, count / 2)),
        Tear::AllOnes => {
            let ones = Vec::from_elem(alloc, 255, count as usize)?;
            overlay_onto(left, at, &ones)
        }
    }
}

/// Makes what a tear leaves of a change of the length to `to` bytes.
fn tear_cut(left: &mut Vec<u8>, tear: Tear, to: u64) -> Result<(), AllocError>
    ensures { OnOk result (left.new.items ≡ torn_cut tear left.old.items to) }
{
    match tear {
        Tear::AsBefore => Ok(()),
        Tear::AsWritten | Tear::FirstHalf | Tear::AllOnes => resize_to(left, to),
    }
}

/// Makes the bytes those of the other vector.
fn copy_over(left: &mut Vec<u8>, seen: &[u8]) -> Result<(), AllocError>
    ensures { OnOk result (left.new.items ≡ seen.now) }
{
    left.clear();
    left.extend_from_slice(seen)
}

/// What a crash leaves behind a call, of what it left before it. `seen` is what a read gave before the call.
fn replay_left(
    alloc: Global,
    left: &mut Vec<u8>,
    seen: &[u8],
    tear: Tear,
    call: &Recorded,
) -> Result<(), AllocError>
    ensures { OnOk result (left.new.items ≡ left_behind tear call.now seen.now left.old.items) }
{
    match call {
        Recorded::Wrote { at, bytes } => {
            let piece = bytes.bytes();
            tear_write(alloc, left, tear, *at, piece.len() as u64, piece)
        }
        Recorded::LostWrite { at, count } => {
            let piece = part_of(seen, *at, *count);
            tear_write(alloc, left, tear, *at, *count, piece)
        }
        Recorded::Cut { to } => tear_cut(left, tear, *to),
        Recorded::LostCut { to } => tear_cut(left, tear, *to),
        Recorded::Synced => copy_over(left, seen),
    }
}

/// What a read gives behind a call.
fn replay_seen(seen: &mut Vec<u8>, call: &Recorded) -> Result<(), AllocError>
    ensures { OnOk result (seen.new.items ≡ seen_behind call.now seen.old.items) }
{
    match call {
        Recorded::Wrote { at, bytes } => overlay_onto(seen, *at, bytes.bytes()),
        Recorded::Cut { to } => resize_to(seen, *to),
        Recorded::LostWrite { .. } => Ok(()),
        Recorded::LostCut { .. } => Ok(()),
        Recorded::Synced => Ok(()),
    }
}

/// What a crash leaves behind these calls on a disk that held the bytes `start` at first.
pub fn replay(
    alloc: Global,
    start: &[u8],
    calls: &[Recorded],
    tear: Tear,
) -> Result<Vec<u8>, NoMemory>
    ensures exact { IfOk result (λ left. left.items ≡ left_by tear ((life_after start.now calls.now).now ∷ (life_after start.now calls.now).past)) }
    ensures image { IfOk result (λ left. IsImage (life_after start.now calls.now).now left.items) }
{
    let mut seen = Vec::from_slice(alloc, start)?;
    let mut left = Vec::from_slice(alloc, start)?;
    for call in calls {
        replay_left(alloc, &mut left, &seen, tear, call)?;
        replay_seen(&mut seen, call)?;
    }
    Ok(left)
}
