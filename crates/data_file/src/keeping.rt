//! Pending writes, and what a restart keeps of a file (RFC 1813, section 3.3.7: what is not stable may be lost).

ghost use Rattle.std.specs.Prelude.{◌≡◌, ◌+◌, ◌<◌, ◌≤◌, length, take, drop, OnOk, IfOk, IfSome, option_map, option_to_list, slice_get};
ghost use Rattle.cluster_model.specs.Content.{overlay, overlay_all, piece_of};
ghost use Rattle.cluster_model.specs.declared.limits.TheConstants.{MAX_FILE};
ghost use Rattle.file_pages.specs.Pages.{bytes_of};
ghost use Rattle.data_file.specs.Paged.{place_of, IsStored};

use cluster_model::Piece;
use file_pages::Pages;
use std::alloc::{AllocError, Global};
use std::marker::Model;

/// A write that is not yet stable: at least one byte, within the file.
#[derive(Drop)]
pub struct PendingWrite {
    // the place of the first byte, counted from the start of the file
    at: usize,
    bytes: Vec<u8>,
}

impl Model for PendingWrite {
    ghost use Rattle.std.specs.Prelude.{◌+◌, ◌<◌, ◌≤◌, length};
    ghost use Rattle.cluster_model.specs.declared.limits.TheConstants.{MAX_FILE};
    ghost use Rattle.cluster_model.specs.Content.{Pending};

    ghost Value = { Pending };

    ghost view = { λ w. record { at = w.at; bytes = w.bytes.items } };

    ghost invariant = { λ w. (0 < length w.bytes.items) × (w.at + length w.bytes.items ≤ MAX_FILE) };
}

impl PendingWrite {
    /// A write of the bytes at a place.
    pub fn new(alloc: Global, at: usize, bytes: &[u8]) -> Result<PendingWrite, AllocError>
        requires some { 0 < length bytes.now }
        requires within { at + length bytes.now ≤ MAX_FILE }
        ensures { IfOk result (λ write. write ≡ record { at = at; bytes = bytes.now }) }
    {
        let bytes = Vec::from_slice(alloc, bytes)?;
        Ok(PendingWrite { at, bytes })
    }

    /// The place of its first byte, and how many bytes it has.
    pub fn place(&self) -> (u64, u64)
        ensures exact { result ≡ place_of self.now }
        ensures some { 0 < result.1 }
        ensures bounded { result.0 + result.1 ≤ MAX_FILE }
    {
        (self.at as u64, self.bytes.len() as u64)
    }

    /// The same write, with bytes of its own.
    fn try_clone(&self, alloc: Global) -> Result<PendingWrite, AllocError>
        ensures { IfOk result (λ write. write ≡ self.now) }
    {
        PendingWrite::new(alloc, self.at, &self.bytes)
    }
}

/// The same writes, with bytes of their own.
pub fn copy_writes(alloc: Global, writes: &[PendingWrite]) -> Result<Vec<PendingWrite>, AllocError>
    ensures { IfOk result (λ copies. copies.items ≡ writes.now) }
{
    let mut copies = Vec::with_capacity(alloc, writes.len())?;
    for write in writes {
        copies.push(write.try_clone(alloc)?)?;
    }
    Ok(copies)
}

/// At most `count` of the bytes from `at` on: none, if they end at or before it.
fn part_of(bytes: &[u8], at: usize, count: usize) -> &[u8]
    ensures { result.now ≡ take count (drop at bytes.now) }
{
    let rest = &bytes[at.min(bytes.len())..];
    &rest[..count.min(rest.len())]
}

/// The place and the bytes of a part of a pending write, where all of them are bytes of one.
fn part_of_write<'a>(pending: &'a [PendingWrite], piece: &Piece) -> Option<(usize, &'a [u8])>
    ensures part { piece_of piece.now (slice_get pending.now piece.now.index) ≡ option_to_list (option_map (λ part. record { at = part.0; bytes = part.1.now }) result) }
    ensures bounded { IfSome result (λ part. part.0 + length part.1.now ≤ MAX_FILE) }
{
    let write = pending.get(piece.index as usize)?;
    let (from, count) = (piece.from as usize, piece.count as usize);
    if from + count > write.bytes.len() {
        return None;
    }
    Some((write.at + from, part_of(&write.bytes, from, count)))
}

/// Puts bytes at a place of a disk's pages, with zeros in a gap.
fn put_bytes(alloc: Global, disk: &mut Pages, at: usize, bytes: &[u8]) -> Result<(), AllocError>
    requires stored { IsStored disk.old }
    requires within { at + length bytes.now ≤ MAX_FILE }
    ensures ok { OnOk result (bytes_of disk.new ≡ overlay (bytes_of disk.old) at bytes.now) }
    ensures stored { IsStored disk.new }
{
    if bytes.is_empty() {
        return Ok(());
    }
    let none = Pages::new(alloc);
    disk.write(&none, at as u64, bytes)
}

/// Puts the part of a pending write that a piece names over the bytes.
fn put_piece(
    alloc: Global,
    disk: &mut Pages,
    pending: &[PendingWrite],
    piece: &Piece,
) -> Result<(), AllocError>
    requires { IsStored disk.old }
    ensures ok { OnOk result (bytes_of disk.new ≡ overlay_all (bytes_of disk.old) (piece_of piece.now (slice_get pending.now piece.now.index))) }
    ensures stored { IsStored disk.new }
{
    match part_of_write(pending, piece) {
        Some((at, bytes)) => put_bytes(alloc, disk, at, bytes),
        None => Ok(()),
    }
}

/// What a file's disk has, on the way to a restart, and the pending writes of which pieces may still
/// reach it.
#[derive(Drop)]
pub struct Kept {
    alloc: Global,
    disk: Pages,
    pending: Vec<PendingWrite>,
}

impl Model for Kept {
    ghost use Rattle.cluster_model.specs.Content.{Content};
    ghost use Rattle.file_pages.specs.Pages.{bytes_of};
    ghost use Rattle.data_file.specs.Paged.{IsStored};

    ghost Value = { Content };

    ghost view = { λ k. record { stable = bytes_of k.disk; pending = k.pending.items } };

    ghost invariant = { λ k. IsStored k.disk };
}

impl Kept {
    /// The bytes of these pages, and these pending writes, copied.
    pub(crate) fn of(
        alloc: Global,
        stable: &Pages,
        pending: &[PendingWrite],
    ) -> Result<Kept, AllocError>
        requires { IsStored stable.now }
        ensures { IfOk result (λ kept. kept ≡ record { stable = bytes_of stable.now; pending = pending.now }) }
    {
        let disk = stable.try_clone()?;
        let pending = copy_writes(alloc, pending)?;
        Ok(Kept {
            alloc,
            disk,
            pending,
        })
    }

    /// This piece of a pending write has reached the disk too. One that names no bytes of a pending
    /// write changes nothing.
    pub(crate) fn add(&mut self, piece: &Piece) -> Result<(), AllocError>
        ensures { OnOk result (self.new ≡ record self.old { stable = overlay_all self.old.stable (piece_of piece.now (slice_get self.old.pending piece.now.index)) }) }
    {
        put_piece(self.alloc, &mut self.disk, &self.pending, piece)
    }

    /// What the disk has.
    pub(crate) fn into_disk(self) -> Pages
        ensures bytes { bytes_of result ≡ self.stable }
        ensures stored { IsStored result }
    {
        self.disk
    }
}
