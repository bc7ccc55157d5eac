//! Some of a file's bytes, lent from its pages.

ghost use Rattle.std.specs.Prelude.{◌≡◌, ◌+◌, ◌-◌, ◌*◌, ◌<◌, ◌≤◌, ◌++◌, length, take, drop, replicate, max, option_map, IfSome, OnOk, OnErr, IfOk};
ghost use Rattle.cluster_model.specs.declared.limits.TheConstants.{MAX_FILE};
ghost use Rattle.ff_xdr.specs.Form.{word, padded};
ghost use Rattle.ff_xdr.specs.Calls.{Puts};
ghost use Rattle.file_pages.specs.Pages.{kept_page, page_over, byte_in, first_bytes};
ghost use Rattle.data_file.specs.Paged.{part_of, upper_of};

use ff_xdr::{Data, NoMemory, Out};
use file_pages::Pages;
use std::alloc::Global;
use std::marker::Model;

/// How many bytes a page has.
const PAGE: u64 = 4096;

const ZEROS: [u8; 4096] = [0; 4096];

/// So many zeros.
fn zeros(count: usize) -> &'static [u8]
    requires { count ≤ 4096 }
    ensures { result.now ≡ replicate count 0 }
{
    &ZEROS[..count]
}

/// The page of a number among the upper pages, where there are such.
fn upper_page(dirty: Option<&Pages>, number: u64) -> Option<&[u8]>
    ensures exact { option_map (λ page. page.now) result ≡ kept_page number (upper_of dirty.entry).kept }
    ensures whole { IfSome result (λ page. length page.now ≡ 4096) }
{
    match dirty {
        Some(pages) => pages.page(number),
        None => None,
    }
}

/// The page of a number: that of the upper pages, or else that of the lower ones.
fn page_over<'f>(stable: &'f Pages, dirty: Option<&'f Pages>, number: u64) -> Option<&'f [u8]>
    ensures exact { option_map (λ page. page.now) result ≡ page_over stable.now.kept (upper_of dirty.entry).kept number }
    ensures whole { IfSome result (λ page. length page.now ≡ 4096) }
{
    match upper_page(dirty, number) {
        Some(page) => Some(page),
        None => stable.page(number),
    }
}

/// Appends bytes of a page, or zeros where there is none.
fn put_page(page: Option<&[u8]>, from: usize, count: usize, out: &mut Out) -> Result<(), NoMemory>
    requires whole { IfSome page (λ page. length page.now ≡ 4096) }
    requires within { from + count ≤ 4096 }
    ensures { Puts out.old result out.new (first_bytes (λ i. byte_in (option_map (λ page. page.now) page.entry) (from + i)) count) }
{
    match page {
        Some(bytes) => out.raw(&bytes[from..from + count]),
        None => out.raw(zeros(count)),
    }
}

/// Appends what the pages show from one place to another. An error may leave a part.
fn put_pages(
    stable: &Pages,
    dirty: Option<&Pages>,
    from: u64,
    end: u64,
    out: &mut Out,
) -> Result<(), NoMemory>
    requires within { end ≤ max stable.now.size (upper_of dirty).size }
    requires bounded { end ≤ MAX_FILE }
    ensures ok { OnOk result (out.new ≡ out.old ++ part_of stable.now (upper_of dirty.entry) from end) }
    ensures err { OnErr result (take (length out.old) out.new ≡ out.old) }
{
    let mut at = from;
    while at < end {
        let start = at % PAGE;
        let next = end.min(at - start + PAGE);
        put_page(
            page_over(stable, dirty, at / PAGE),
            start as usize,
            (next - at) as usize,
            out,
        )?;
        at = next;
    }
    Ok(())
}

/// Some of a file's bytes, which stand in its pages: of those that a reader sees, or of the stable ones.
#[derive(Drop)]
pub struct FilePart<'f> {
    stable: &'f Pages,
    // the pages over them, where these are shown too
    dirty: Option<&'f Pages>,
    // the places of the first byte and of the first behind it
    from: u64,
    end: u64,
}

impl<'f> Model for FilePart<'f> {
    ghost use Rattle.std.specs.Prelude.{List, ℕ, ◌≤◌, max};
    ghost use Rattle.cluster_model.specs.declared.limits.TheConstants.{MAX_FILE};
    ghost use Rattle.data_file.specs.Paged.{part_of, upper_of};

    ghost Value = { List ℕ };

    ghost view = { λ p. part_of p.stable.now (upper_of p.dirty) p.from p.end };

    ghost invariant = { λ p. (p.from ≤ p.end) × (p.end ≤ max p.stable.now.size (upper_of p.dirty).size) × (p.end ≤ MAX_FILE) };
}

impl<'f> FilePart<'f> {
    /// From one place to another of what the pages show.
    pub(crate) fn new(
        stable: &'f Pages,
        dirty: Option<&'f Pages>,
        from: u64,
        end: u64,
    ) -> FilePart<'f>
        requires order { from ≤ end }
        requires within { end ≤ max stable.now.size (upper_of dirty).size }
        requires bounded { end ≤ MAX_FILE }
        ensures { result ≡ part_of stable.entry.now (upper_of dirty.entry) from end }
    {
        FilePart {
            stable,
            dirty,
            from,
            end,
        }
    }

    /// How many bytes: at most 67,108,864.
    fn count(&self) -> u32
        ensures { result ≡ length self.now }
    {
        (self.end - self.from) as u32
    }

    /// How many bytes.
    pub fn len(&self) -> usize
        ensures { result ≡ length self.now }
    {
        self.count() as usize
    }

    /// Appends the bytes as they are. An error may leave a part.
    fn grow(&self, out: &mut Out) -> Result<(), NoMemory>
        ensures ok { OnOk result (out.new ≡ out.old ++ self.now) }
        ensures err { OnErr result (take (length out.old) out.new ≡ out.old) }
    {
        put_pages(self.stable, self.dirty, self.from, self.end, out)
    }

    /// Appends the length, the bytes, and zeros up to a multiple of four. An error may leave a part.
    fn spell(&self, out: &mut Out) -> Result<(), NoMemory>
        ensures ok { OnOk result (out.new ≡ out.old ++ word (length self.now) ++ padded self.now) }
        ensures err { OnErr result (take (length out.old) out.new ≡ out.old) }
    {
        let count = self.count();
        out.reserve(count as usize + 8)?;
        out.number32(count)?;
        self.grow(out)?;
        out.raw(zeros(((4 - count % 4) % 4) as usize))
    }

    /// Appends the bytes as opaque data of variable length (RFC 4506, section 4.10).
    ///
    /// # Errors
    ///
    /// `NoMemory`, and what was collected is as before.
    pub fn put_opaque(&self, out: &mut Out) -> Result<(), NoMemory>
        ensures { Puts out.old result out.new (word (length self.now) ++ padded self.now) }
    {
        let mark = out.len();
        if self.spell(out).is_err() {
            out.truncate(mark);
            return Err(NoMemory);
        }
        Ok(())
    }

    /// The bytes, copied.
    ///
    /// # Errors
    ///
    /// `NoMemory` where memory is wanted.
    pub fn to_data(&self, alloc: Global) -> Result<Data, NoMemory>
        ensures { IfOk result (λ bytes. bytes ≡ self.now) }
    {
        let mut out = Out::new(alloc);
        out.reserve(self.len())?;
        self.grow(&mut out)?;
        Ok(Data::from_vec(out.into_bytes()))
    }
}
