//! The bytes of a file, stable or pending, as pages.

ghost use Rattle.std.specs.Prelude.{◌≡◌, ◌+◌, ◌/◌, ◌<◌, ◌≤◌, [], length, take, drop, OnOk, OnErr, IfOk};
ghost use Rattle.cluster_model.specs.declared.limits.TheConstants.{MAX_FILE};
ghost use Rattle.cluster_model.specs.Content.{no_content, shown_of, joined, settled};
ghost use Rattle.file_pages.specs.Pages.{HaveSamePages, IsWrittenOver};
ghost use Rattle.data_file.specs.Kept.{kept_content};

use crate::keeping::{Kept, PendingWrite};
use crate::part::FilePart;
use file_pages::Pages;
use std::alloc::{AllocError, Global};
use std::marker::Model;

/// How many pages a write of so many bytes touches, at most.
fn most_touched(count: usize) -> usize
    ensures { result ≡ count / 4096 + 2 }
{
    count / 4096 + 2
}

/// Puts bytes over what the pages show. Behind it the stable ones have room for each that was touched.
///
/// An error leaves the pages as they were.
fn put_over(
    stable: &mut Pages,
    dirty: &mut Pages,
    at: usize,
    bytes: &[u8],
) -> Result<(), AllocError>
    requires some { 0 < length bytes.now }
    requires within { at + length bytes.now ≤ MAX_FILE }
    ensures stable { HaveSamePages stable.old stable.new }
    ensures grows { stable.old.room ≤ stable.new.room }
    ensures ok { OnOk result (IsWrittenOver stable.new dirty.old at bytes.now dirty.new) }
    ensures room { OnOk result (length dirty.new.kept ≤ stable.new.room) }
    ensures err { OnErr result (HaveSamePages dirty.old dirty.new) }
{
    stable.reserve(dirty.kept() as usize + most_touched(bytes.len()))?;
    dirty.write(stable, at as u64, bytes)
}

/// The stable pages, over them those that pending writes have touched, and the pending writes.
#[derive(Drop)]
pub struct FileContent {
    alloc: Global,
    stable: Pages,
    dirty: Pages,
    pending: Vec<PendingWrite>,
}

impl Model for FileContent {
    ghost use Rattle.cluster_model.specs.Content.{Content};
    ghost use Rattle.file_pages.specs.Pages.{bytes_of};
    ghost use Rattle.data_file.specs.Paged.{IsPaged};

    ghost Value = { Content };

    ghost view = { λ c. record { stable = bytes_of c.stable; pending = c.pending.items } };

    ghost invariant = { λ c. IsPaged c.stable c.dirty c.pending.items };
}

impl FileContent {
    /// No bytes. No memory is taken.
    pub fn new(alloc: Global) -> FileContent
        ensures { result ≡ no_content }
    {
        FileContent {
            alloc,
            stable: Pages::new(alloc),
            dirty: Pages::new(alloc),
            pending: Vec::new(alloc),
        }
    }

    /// How many bytes a reader sees.
    pub fn size(&self) -> u64
        ensures exact { result ≡ length (shown_of self.now) }
        ensures bounded { result ≤ MAX_FILE }
    {
        self.stable.length().max(self.dirty.length())
    }

    /// At most `count` of the bytes that a reader sees, from the byte `at` on.
    pub fn part(&self, at: u64, count: u32) -> FilePart<'_>
        ensures { result ≡ take count (drop at (shown_of self.now)) }
    {
        let size = self.stable.length().max(self.dirty.length());
        let from = at.min(size);
        let end = size.min(from + u64::from(count));
        FilePart::new(&self.stable, Some(&self.dirty), from, end)
    }

    /// How many bytes are stable.
    pub fn stable_size(&self) -> u64
        ensures exact { result ≡ length self.now.stable }
        ensures bounded { result ≤ MAX_FILE }
    {
        self.stable.length()
    }

    /// At most `count` of the stable bytes, from the byte `at` on.
    pub fn stable_part(&self, at: u64, count: u32) -> FilePart<'_>
        ensures { result ≡ take count (drop at self.now.stable) }
    {
        let size = self.stable.length();
        let from = at.min(size);
        let end = size.min(from + u64::from(count));
        FilePart::new(&self.stable, None, from, end)
    }

    /// The pending writes, the first first.
    pub fn pending(&self) -> &[PendingWrite]
        ensures { result.now ≡ self.now.pending }
    {
        &self.pending
    }

    /// Puts bytes at a place, which are pending then; none change nothing.
    ///
    /// An error leaves all as it was.
    pub fn put_pending(&mut self, at: usize, bytes: &[u8]) -> Result<(), AllocError>
        requires { at + length bytes.now ≤ MAX_FILE }
        ensures ok { OnOk result (self.new ≡ joined self.old at bytes.now) }
        ensures err { OnErr result (self.new ≡ self.old) }
    {
        if bytes.is_empty() {
            return Ok(());
        }
        self.pending
            .push(PendingWrite::new(self.alloc, at, bytes)?)?;
        if let Err(error) = put_over(&mut self.stable, &mut self.dirty, at, bytes) {
            let _ = self.pending.pop();
            return Err(error);
        }
        Ok(())
    }

    /// Puts bytes at a place, and makes them and all that is shown stable.
    ///
    /// An error leaves all as it was.
    pub fn put_synced(&mut self, at: usize, bytes: &[u8]) -> Result<(), AllocError>
        requires { at + length bytes.now ≤ MAX_FILE }
        ensures ok { OnOk result (self.new ≡ settled (joined self.old at bytes.now)) }
        ensures err { OnErr result (self.new ≡ self.old) }
    {
        if bytes.is_empty() {
            self.settle();
            return Ok(());
        }
        if self.pending.is_empty() {
            return self.stable.write(&self.dirty, at as u64, bytes);
        }
        put_over(&mut self.stable, &mut self.dirty, at, bytes)?;
        self.stable.adopt_reserved(&mut self.dirty);
        self.pending = Vec::new(self.alloc);
        Ok(())
    }

    /// Makes all that is shown stable: the touched pages move over. Takes no memory.
    pub fn settle(&mut self)
        ensures { self.new ≡ settled self.old }
    {
        self.stable.adopt_reserved(&mut self.dirty);
        self.pending = Vec::new(self.alloc);
    }

    /// What was kept so far for a restart, or the stable bytes and the pending writes, copied.
    pub fn begun(&self, kept: Option<Kept>) -> Result<Kept, AllocError>
        ensures { IfOk result (λ after. after ≡ kept_content self.now kept) }
    {
        match kept {
            Some(kept) => Ok(kept),
            None => Kept::of(self.alloc, &self.stable, &self.pending),
        }
    }

    /// Leaves the bytes that were kept for a restart, or the stable ones, and nothing pending. Takes no memory.
    pub fn crash(&mut self, kept: Option<Kept>)
        ensures { self.new ≡ record { stable = (kept_content self.old kept).stable; pending = [] } }
    {
        if let Some(kept) = kept {
            self.stable = kept.into_disk();
        }
        self.dirty = Pages::new(self.alloc);
        self.pending = Vec::new(self.alloc);
    }
}
