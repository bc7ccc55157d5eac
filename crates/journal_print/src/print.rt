//! The line of an entry.

ghost use Rattle.std.specs.Prelude.{◌≡◌};
ghost use Rattle.ff_xdr.specs.Calls.{Puts, Grows};
ghost use Rattle.cluster_model.specs.Print.{words, line_of};
ghost use Rattle.journal_print.specs.Brief.{is_brief, words_by, brief_line};
ghost use Rattle.journal_print.specs.Shown.{text_shown};

use crate::data_text::Shown;
use crate::lines::{
    put_answer, put_applied, put_audit, put_between, put_client, put_committed, put_counted,
    put_ended, put_fenced, put_free, put_granted, put_later, put_left, put_of_mirror, put_packet,
    put_read, put_restarted, put_swapped, put_timed_out, put_write,
};
use cluster_model::Entry;
use ff_xdr::{NoMemory, Out};

/// Appends the line of an entry, with its data shown so unless it is a packet; at an error it may have
/// appended a part of it.
fn put_line(entry: &Entry, shown: Shown, out: &mut Out) -> Result<(), NoMemory>
    ensures { Grows out.old result out.new (words (words_by (text_shown shown) entry.now)) }
{
    match entry {
        Entry::Packet {
            number,
            from,
            to,
            bytes,
        } => put_packet(*number, *from, *to, bytes.bytes(), out),
        Entry::Delivered { number } => put_counted(b"delivered", *number, out),
        Entry::TimedOut { node, xid } => put_timed_out(*node, *xid, out),
        Entry::Hold { from, to } => put_between(b"hold", *from, *to, out),
        Entry::Pass { from, to } => put_between(b"pass", *from, *to, out),
        Entry::Tick { seconds } => put_counted(b"tick", u64::from(*seconds), out),
        Entry::Granted { file, cred, holder } => put_granted(*file, *cred, *holder, out),
        Entry::Sent {
            file,
            cred,
            at,
            bytes,
        } => put_write(b"sent", *file, *cred, *at, bytes.bytes(), shown, out),
        Entry::Rogue {
            file,
            cred,
            at,
            bytes,
        } => put_write(b"rogue", *file, *cred, *at, bytes.bytes(), shown, out),
        Entry::Turned { client } => put_client(b"turned", *client, out),
        Entry::Told {
            file,
            cred,
            at,
            bytes,
        } => put_write(b"told", *file, *cred, *at, bytes.bytes(), shown, out),
        Entry::Ended { file, cred, cause } => put_ended(*file, *cred, *cause, out),
        Entry::Left {
            file,
            mirror,
            cause,
        } => put_left(*file, *mirror, *cause, out),
        Entry::Swapped { file, old, new } => put_swapped(*file, *old, *new, out),
        Entry::Fenced {
            file,
            old,
            new,
            live,
        } => put_fenced(*file, *old, *new, live.as_slice(), out),
        Entry::Free { file, live } => put_free(*file, live.as_slice(), out),
        Entry::Applied {
            mirror,
            cred,
            at,
            bytes,
        } => put_applied(*mirror, *cred, *at, bytes.bytes(), shown, out),
        Entry::Committed { mirror } => put_committed(*mirror, out),
        Entry::Owner { mirror, cred } => put_of_mirror(b"owner", *mirror, cred.0, out),
        Entry::Restarted { server, pieces } => put_restarted(*server, pieces.as_slice(), out),
        Entry::ReadAnswer {
            file,
            status,
            bytes,
        } => put_read(*file, *status, bytes.bytes(), shown, out),
        Entry::Failed { mirror, xid } => put_of_mirror(b"failed", *mirror, *xid, out),
        Entry::Later { file, phase } => put_later(*file, *phase, out),
        Entry::Answer { client, answer } => put_answer(*client, answer, shown, out),
        Entry::Audit {
            file,
            mirror,
            length,
            bytes,
        } => put_audit(*file, *mirror, *length, bytes.bytes(), shown, out),
        Entry::Rebooted { client } => put_client(b"rebooted", *client, out),
    }
}

/// Appends the line of an entry, with its data shown so. At an error all is as before.
fn put_or_restore(entry: &Entry, shown: Shown, out: &mut Out) -> Result<(), NoMemory>
    ensures { Puts out.old result out.new (words (words_by (text_shown shown) entry.now)) }
{
    let mark = out.len();
    if put_line(entry, shown, out).is_err() {
        out.truncate(mark);
        return Err(NoMemory);
    }
    Ok(())
}

/// Appends the line of an entry. At an error all is as before.
#[tactic(auto, using(crate::proofs::LineData::whole_line))]
pub fn put_entry(entry: &Entry, out: &mut Out) -> Result<(), NoMemory>
    ensures { Puts out.old result out.new (line_of entry.now) }
{
    put_or_restore(entry, Shown::Whole, out)
}

/// The entry has a line in the brief trace.
fn has_brief_line(entry: &Entry) -> bool
    ensures { result ≡ is_brief entry.now }
{
    !matches!(
        entry,
        Entry::Packet { .. }
            | Entry::Delivered { .. }
            | Entry::TimedOut { .. }
            | Entry::Hold { .. }
            | Entry::Pass { .. }
            | Entry::Tick { .. }
    )
}

/// Appends the brief line of an entry, if it has one: data of more than 64 bytes is cut after 64, with
/// `+` and how many the others are behind. At an error all is as before.
pub fn put_brief(entry: &Entry, out: &mut Out) -> Result<(), NoMemory>
    ensures { Puts out.old result out.new (brief_line entry.now) }
{
    if !has_brief_line(entry) {
        return Ok(());
    }
    put_or_restore(entry, Shown::Brief, out)
}
