//! A file of a data server.

ghost use Rattle.std.specs.Prelude.{◌≡◌, true, false, ◌+◌, ◌<◌, ◌≤◌, length, take, drop, OnOk, OnErr, IfOk, IfSome, option_map, slice_get};
ghost use Rattle.cluster_model.specs.declared.limits.TheConstants.{MAX_FILE};
ghost use Rattle.cluster_model.specs.Content.{no_content, overlay_all, piece_of};
ghost use Rattle.cluster_model.specs.File.{shown, new_file, all_at, times_after, times_set, time_set, written, committed, set};
ghost use Rattle.data_file.specs.Kept.{kept_content, IsKeptOf, crashed};
ghost use Rattle.data_file.specs.Paged.{place_of};

use crate::content::FileContent;
use crate::keeping::Kept;
use crate::part::FilePart;
use cluster_model::{Changes, NewTime, Piece, Tick, Times};
use std::alloc::{AllocError, Global};
use std::marker::Model;

/// The times of a file that is made at the tick.
fn all_at(tick: Tick) -> Times
    ensures { result ≡ all_at tick }
{
    Times {
        atime: tick,
        mtime: tick,
        ctime: tick,
    }
}

/// The times after a write of the bytes at the tick: one of no bytes changes nothing.
fn times_after(times: Times, tick: Tick, bytes: &[u8]) -> Times
    ensures { result ≡ times_after times tick bytes.now }
{
    if bytes.is_empty() {
        return times;
    }
    Times {
        mtime: tick,
        ctime: tick,
        ..times
    }
}

/// A time that is set at the tick.
fn time_set(new: NewTime, tick: Tick, old: Tick) -> Tick
    ensures { result ≡ time_set new tick old }
{
    match new {
        NewTime::Keep => old,
        NewTime::Now => tick,
        NewTime::At(other) => other,
    }
}

/// The times after a SETATTR at the tick (RFC 1813, section 3.3.2).
pub fn times_set(times: Times, tick: Tick, changes: &Changes) -> Times
    ensures { result ≡ times_set times tick changes.now }
{
    Times {
        atime: time_set(changes.atime, tick, times.atime),
        mtime: time_set(changes.mtime, tick, times.mtime),
        ctime: tick,
    }
}

/// The bytes and the attributes of a file of a data server.
///
/// A write is stable at once, or pending until the next stable one. A reader sees both.
#[derive(Drop)]
pub struct DataFile {
    content: FileContent,
    owner: u32,
    group: u32,
    mode: u32,
    times: Times,
    stable_times: Times,
}

impl Model for DataFile {
    ghost use Rattle.cluster_model.specs.File.{StoredFile};

    ghost Value = { StoredFile };

    ghost view = { λ f. record { content = f.content; owner = f.owner; group = f.group; mode = f.mode; times = f.times; stable_times = f.stable_times } };
}

impl DataFile {
    /// An empty file. No memory is taken.
    ///
    /// The mode is the permission bits (RFC 1813, section 2.5). The tick is every time of the file.
    pub fn new(alloc: Global, owner: u32, group: u32, mode: u32, tick: Tick) -> DataFile
        ensures { result ≡ new_file owner group mode tick }
    {
        DataFile {
            content: FileContent::new(alloc),
            owner,
            group,
            mode,
            times: all_at(tick),
            stable_times: all_at(tick),
        }
    }

    /// An empty file with these attributes, all of them stable. No memory is taken.
    pub fn with_times(alloc: Global, owner: u32, group: u32, mode: u32, times: Times) -> DataFile
        ensures { result ≡ record { content = no_content; owner = owner; group = group; mode = mode; times = times; stable_times = times } }
    {
        DataFile {
            content: FileContent::new(alloc),
            owner,
            group,
            mode,
            times,
            stable_times: times,
        }
    }

    /// How many bytes a reader sees.
    pub fn size(&self) -> u64
        ensures exact { result ≡ length (shown self.now) }
        ensures bounded { result ≤ MAX_FILE }
    {
        self.content.size()
    }

    /// At most `count` of the bytes that a reader sees, from the byte `at` on (RFC 1813, section
    /// 3.3.6).
    ///
    /// They are fewer where the file ends sooner, and none where it ends at or before `at`.
    pub fn read(&self, at: u64, count: u32) -> FilePart<'_>
        ensures { result ≡ take count (drop at (shown self.now)) }
    {
        self.content.part(at, count)
    }

    /// How many bytes are stable.
    pub fn stable_size(&self) -> u64
        ensures exact { result ≡ length self.now.content.stable }
        ensures bounded { result ≤ MAX_FILE }
    {
        self.content.stable_size()
    }

    /// At most `count` of the stable bytes, from the byte `at` on: what a restart that keeps nothing else leaves of them.
    pub fn stable_part(&self, at: u64, count: u32) -> FilePart<'_>
        ensures { result ≡ take count (drop at self.now.content.stable) }
    {
        self.content.stable_part(at, count)
    }

    /// The user that the file belongs to.
    pub fn owner(&self) -> u32
        ensures { result ≡ self.now.owner }
    {
        self.owner
    }

    /// The group that the file belongs to.
    pub fn group(&self) -> u32
        ensures { result ≡ self.now.group }
    {
        self.group
    }

    /// The permission bits.
    pub fn mode(&self) -> u32
        ensures { result ≡ self.now.mode }
    {
        self.mode
    }

    /// The times that a reader sees.
    pub fn times(&self) -> Times
        ensures { result ≡ self.now.times }
    {
        self.times
    }

    /// The times that a restart leaves.
    pub fn stable_times(&self) -> Times
        ensures { result ≡ self.now.stable_times }
    {
        self.stable_times
    }

    /// How many writes are pending.
    pub fn pending_count(&self) -> usize
        ensures { result ≡ length self.now.content.pending }
    {
        self.content.pending().len()
    }

    /// Where a pending write stands: the place of its first byte, and how many it has, at least one. The first write has the
    /// index 0.
    pub fn pending_at(&self, index: usize) -> Option<(u64, u64)>
        ensures exact { result ≡ option_map place_of (slice_get self.now.content.pending index) }
        ensures some { IfSome result (λ place. 0 < place.1) }
        ensures bounded { IfSome result (λ place. place.0 + place.1 ≤ MAX_FILE) }
    {
        Some(self.content.pending().get(index)?.place())
    }

    /// Puts the bytes at the byte `at`, at the tick (RFC 1813, section 3.3.7).
    ///
    /// A gap before them is filled with zeros. Where the write is synced, it and all the writes
    /// before it are stable then (`COMMIT`, section 3.3.21), also where it has no bytes.
    ///
    /// # Errors
    ///
    /// `AllocError` where memory is wanted, and the file is as it was.
    pub fn write(
        &mut self,
        tick: Tick,
        at: u64,
        synced: bool,
        bytes: &[u8],
    ) -> Result<(), AllocError>
        requires { at + length bytes.now ≤ MAX_FILE }
        ensures ok { OnOk result (self.new ≡ written self.old tick at synced bytes.now) }
        ensures err { OnErr result (self.new ≡ self.old) }
    {
        if synced {
            self.write_synced(tick, at as usize, bytes)
        } else {
            self.write_pending(tick, at as usize, bytes)
        }
    }

    fn write_pending(&mut self, tick: Tick, at: usize, bytes: &[u8]) -> Result<(), AllocError>
        requires { at + length bytes.now ≤ MAX_FILE }
        ensures ok { OnOk result (self.new ≡ written self.old tick at false bytes.now) }
        ensures err { OnErr result (self.new ≡ self.old) }
    {
        self.content.put_pending(at, bytes)?;
        self.times = times_after(self.times, tick, bytes);
        Ok(())
    }

    fn write_synced(&mut self, tick: Tick, at: usize, bytes: &[u8]) -> Result<(), AllocError>
        requires { at + length bytes.now ≤ MAX_FILE }
        ensures ok { OnOk result (self.new ≡ written self.old tick at true bytes.now) }
        ensures err { OnErr result (self.new ≡ self.old) }
    {
        self.content.put_synced(at, bytes)?;
        self.times = times_after(self.times, tick, bytes);
        self.stable_times = self.times;
        Ok(())
    }

    /// Makes all that is shown stable (`COMMIT`, RFC 1813, section 3.3.21). Takes no memory.
    pub fn commit(&mut self)
        ensures { self.new ≡ committed self.old }
    {
        self.content.settle();
        self.stable_times = self.times;
    }

    /// Sets what is named at the tick (`SETATTR`, RFC 1813, section 3.3.2). Pending writes stay
    /// pending. Takes no memory.
    pub fn set(&mut self, tick: Tick, changes: &Changes)
        ensures { self.new ≡ set self.old tick changes.now }
    {
        self.owner = changes.owner.unwrap_or(self.owner);
        self.group = changes.group.unwrap_or(self.group);
        self.mode = changes.mode.unwrap_or(self.mode);
        self.times = times_set(self.times, tick, changes);
        self.stable_times = self.times;
    }

    /// What a restart keeps, once this piece of a pending write has reached the disk too. `kept` is
    /// what it kept so far, and None the stable bytes. A piece that names no bytes of a pending write
    /// keeps nothing. The first copies the bytes of the file and of its pending writes, once.
    ///
    /// # Errors
    ///
    /// `AllocError` where memory is wanted.
    pub fn keep(&self, piece: &Piece, kept: Option<Kept>) -> Result<Option<Kept>, AllocError>
        requires { IsKeptOf self.now kept }
        ensures bytes { IfOk result (λ after. (kept_content self.now.content after).stable ≡ overlay_all (kept_content self.now.content kept).stable (piece_of piece.now (slice_get self.now.content.pending piece.now.index))) }
        ensures bounded { IfOk result (λ after. IsKeptOf self.now after) }
    {
        if self.content.pending().is_empty() {
            return Ok(kept);
        }
        let mut after = self.content.begun(kept)?;
        after.add(piece)?;
        Ok(Some(after))
    }

    /// Starts again with the bytes that `keep` has kept, and None is the stable ones: nothing is
    /// pending, and the times are the stable ones. Takes no memory.
    pub fn restart(&mut self, kept: Option<Kept>)
        requires { IsKeptOf self.old kept }
        ensures { self.new ≡ crashed self.old (kept_content self.old.content kept).stable }
    {
        self.content.crash(kept);
        self.times = self.stable_times;
    }
}
