//! A file's bytes, of which only the pages that something was written to are kept.

ghost use Rattle.std.specs.Prelude.{◌≡◌, ◌+◌, ◌-◌, ◌^◌, ◌<◌, ◌≤◌, ◌++◌, min, length, take, drop, IfOk, IfSome, OnOk, OnErr, option_map};
ghost use Rattle.cluster_model.specs.declared.limits.TheConstants.{MAX_FILE};
ghost use Rattle.file_pages.specs.Pages.{RiseFrom, AreWhole, kept_page, bytes_of, IsEmpty, HaveSamePages, IsWrittenOver, HasAdopted};

use crate::adopt::merge;
use crate::find;
use crate::page::Page;
use crate::read::read_pages;
use crate::write::write_pages;
use std::alloc::{AllocError, Global};
use std::marker::Model;

/// The bytes of a file: how many there are, and the pages that something was written to. All other bytes are zeros (POSIX.1-2017,
/// write: bytes between the old end and the place of a write beyond it).
///
/// Pages may stand over those of another file, as what is written and not yet stable over what is: a page that is not kept then has
/// the bytes of the one below it.
#[derive(Drop)]
pub struct Pages {
    alloc: Global,
    // how many bytes the file has
    size: u64,
    // their numbers rise
    pages: Vec<Page>,
}

impl Model for Pages {
    ghost use Rattle.std.specs.Prelude.{◌-◌};
    ghost use Rattle.std.specs.Vec.{vec_len, vec_capacity};
    ghost use Rattle.file_pages.specs.Pages.{PagesValue};
    ghost use Rattle.file_pages.specs.Places.{IsFile};

    ghost Value = { PagesValue };

    ghost view = { λ p. record { size = p.size; kept = p.pages.items; room = vec_capacity p.pages - vec_len p.pages } };

    ghost invariant = { λ p. IsFile p.size p.pages.items };
}

impl Pages {
    /// No bytes. No memory is taken.
    pub fn new(alloc: Global) -> Pages
        ensures { IsEmpty result }
    {
        Pages {
            alloc,
            size: 0,
            pages: Vec::new(alloc),
        }
    }

    /// How many bytes the file has, at most 67,108,864.
    pub fn length(&self) -> u64
        ensures exact { result ≡ self.now.size }
        ensures bounded { result ≤ MAX_FILE }
    {
        self.size
    }

    /// How many pages are kept. Their numbers rise, and each has 4,096 bytes.
    pub fn kept(&self) -> u64
        ensures exact { result ≡ length self.now.kept }
        ensures rise { RiseFrom 0 self.now.kept }
        ensures whole { AreWhole self.now.kept }
        ensures bounded { result < 2 ^ 63 }
    {
        self.pages.len() as u64
    }

    /// The 4,096 bytes of the page of this number, where it is kept. The page n has the bytes from 4,096 n on.
    pub fn page(&self, number: u64) -> Option<&[u8]>
        ensures exact { option_map (λ page. page.now) result ≡ kept_page number self.now.kept }
        ensures whole { IfSome result (λ page. length page.now ≡ 4096) }
    {
        find::page_bytes(&self.pages, number)
    }

    /// Puts at least one byte at the byte `at`, which all end at byte 67,108,864 or before. The file reaches at least as far as they
    /// do. A touched page that is not kept begins as that of `base`, or with zeros, and is kept from then on.
    ///
    /// # Errors
    ///
    /// `AllocError` where memory is wanted, and the pages are as they were.
    pub fn write(&mut self, base: &Pages, at: u64, bytes: &[u8]) -> Result<(), AllocError>
        requires some { 0 < length bytes.now }
        requires within { at + length bytes.now ≤ MAX_FILE }
        ensures ok { OnOk result (IsWrittenOver base.now self.old at bytes.now self.new) }
        ensures err { OnErr result (HaveSamePages self.old self.new) }
    {
        write_pages(self.alloc, &mut self.pages, &base.pages, at, bytes)?;
        self.size = self.size.max(at + bytes.len() as u64);
        Ok(())
    }

    /// The bytes from the byte `at` on, as many as the piece holds or the file has there. Says how many; none where it ends at or
    /// before `at`.
    pub fn read(&self, at: u64, piece: &mut [u8]) -> usize
        ensures count { result ≡ min (length piece.old) (self.now.size - at) }
        ensures bytes { piece.new ≡ take result (drop at (bytes_of self.now)) ++ drop result piece.old }
    {
        let count = piece.len().min(self.size.saturating_sub(at) as usize);
        if count == 0 {
            return 0;
        }
        read_pages(&self.pages, at, &mut piece[..count]);
        count
    }

    /// Makes room for so many more pages.
    ///
    /// # Errors
    ///
    /// `AllocError` where memory is wanted, and the pages are as they were.
    pub fn reserve(&mut self, more: usize) -> Result<(), AllocError>
        ensures same { HaveSamePages self.old self.new }
        ensures ok { OnOk result (more ≤ self.new.room) }
        ensures grows { self.old.room ≤ self.new.room }
    {
        self.pages.reserve(more)
    }

    /// Each page of `dirty` takes the place of its number, moved and not copied. The file reaches as far as the longer of both, and
    /// `dirty` is empty. Takes no memory: there is room for as many pages as `dirty` has.
    pub fn adopt_reserved(&mut self, dirty: &mut Pages)
        requires { length dirty.old.kept ≤ self.old.room }
        ensures adopted { HasAdopted self.old dirty.old self.new }
        ensures empty { IsEmpty dirty.new }
    {
        merge(&mut self.pages, 0, &mut dirty.pages);
        self.size = self.size.max(dirty.size);
        dirty.size = 0;
    }

    /// The same where room may be wanting.
    ///
    /// # Errors
    ///
    /// `AllocError` where memory is wanted, and both are as they were.
    pub fn adopt(&mut self, dirty: &mut Pages) -> Result<(), AllocError>
        ensures ok { OnOk result (HasAdopted self.old dirty.old self.new) }
        ensures empty { OnOk result (IsEmpty dirty.new) }
        ensures err { OnErr result (HaveSamePages self.old self.new) }
        ensures err_dirty { OnErr result (HaveSamePages dirty.old dirty.new) }
    {
        self.reserve(dirty.pages.len())?;
        self.adopt_reserved(dirty);
        Ok(())
    }

    /// The same bytes, copied.
    ///
    /// # Errors
    ///
    /// `AllocError` where memory is wanted.
    pub fn try_clone(&self) -> Result<Pages, AllocError>
        ensures { IfOk result (λ copy. HaveSamePages self.now copy) }
    {
        let mut pages = Vec::with_capacity(self.alloc, self.pages.len())?;
        for page in &self.pages {
            pages.push(page.try_clone(self.alloc)?)?;
        }
        Ok(Pages {
            alloc: self.alloc,
            size: self.size,
            pages,
        })
    }
}
