//! What a LAYOUTRETURN reports: `report_of MIRRORS IOERR ..`. An IOERR has the errors of a part of a file, each
//! `DEVICE:STATUS:OPNUM`, with commas between them; `-` is none. The part is the whole file, and its stateid is zeros.

use cluster_model::Mirrors;
use ff_layout::LayoutReturnBody;
use ff_xdr::{NoMemory, Out, Wire};
use layout_report::report_of;
use row_words::{Answer, Words};

/// How many things stand with a mark between them.
fn count(text: &str, mark: char) -> u32 {
    u32::try_from(text.split(mark).count()).unwrap_or(u32::MAX)
}

/// Appends what went wrong at a device.
fn put_device_error(words: &mut Words<'_>, text: &str, out: &mut Out) -> Result<(), NoMemory> {
    let mut item = Words::of(words.alloc(), text);
    let mut device = Words::of(words.alloc(), item.before(":"));
    let id = device.sized::<16>();
    let status = item.number32_before(":");
    let opnum = item.number32();
    words.behind(device);
    words.behind(item);
    (id, status, opnum).put(out)
}

/// Appends the errors of a part of a file (RFC 8435, section 9.1.1).
fn put_io_error(words: &mut Words<'_>, text: &str, out: &mut Out) -> Result<(), NoMemory> {
    (0_u64, u64::MAX, [0_u8; 16]).put(out)?;
    if text == "-" {
        return out.number32(0);
    }
    out.number32(count(text, ','))?;
    for item in text.split(',') {
        put_device_error(words, item, out)?;
    }
    Ok(())
}

/// Appends the parts of a file.
fn put_parts(words: &mut Words<'_>, parts: &str, out: &mut Out) -> Result<(), NoMemory> {
    if parts.is_empty() {
        return out.number32(0);
    }
    out.number32(count(parts, ' '))?;
    for part in parts.split(' ') {
        put_io_error(words, part, out)?;
    }
    Ok(())
}

/// Appends the body of a LAYOUTRETURN with a part of the file for each of these words (RFC 8435, section 9.3).
fn put_body(words: &mut Words<'_>, parts: &str, out: &mut Out) -> Result<(), NoMemory> {
    put_parts(words, parts, out)?;
    out.number32(0)
}

/// Which of the mirrors a body reports.
fn put_reported(body: &[u8], live: &Mirrors, answer: &mut Answer) {
    match LayoutReturnBody::from_bytes(body) {
        Ok(body) => answer.places(&report_of(&body.errors, live)),
        Err(_) => answer.refuse(),
    }
}

/// Which of the mirrors are reported.
pub fn put_report(words: &mut Words<'_>, answer: &mut Answer) {
    let live = words.mirrors();
    let parts = words.rest();
    let mut body = Out::new(words.alloc());
    match put_body(words, parts, &mut body) {
        Ok(()) => put_reported(body.bytes(), &live, answer),
        Err(_) => answer.want_memory(),
    }
}
