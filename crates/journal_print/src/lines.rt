//! The lines of entries, each a function of the fields that its kind has.

ghost use Rattle.std.specs.Prelude.{[], ◌∷◌, codes, decimal};
ghost use Rattle.ff_xdr.specs.Calls.{Grows};
ghost use Rattle.cluster_model.specs.declared.ids.NodeId.TheVariants.{Client};
ghost use Rattle.cluster_model.specs.declared.entry.Entry.TheVariants as entry;
ghost use Rattle.cluster_model.specs.Wordings.{left_words, fail_words};
ghost use Rattle.cluster_model.specs.Print.{node_text, mirror_text, words, line_of};
ghost use Rattle.journal_print.specs.Brief.{answer_by, words_by};
ghost use Rattle.journal_print.specs.Shown.{text_shown};

use crate::data_text::{Shown, put_data, put_last_data};
use crate::lists::put_last_list;
use crate::texts::{
    end_word, phase_word, put_last, put_mirror, put_next_mirror, put_next_node, put_node,
    put_numbered, put_old,
};
use cluster_model::{
    Cred, EndCause, FailCause, FileId, LeftCause, MirrorId, NodeId, Phase, Piece, UserAnswer,
};
use ff_xdr::{NoMemory, Out};

/// Appends a line of a word and a number.
pub fn put_counted(word: &[u8], number: u64, out: &mut Out) -> Result<(), NoMemory>
    ensures { Grows out.old result out.new (words (word.now ∷ decimal number ∷ [])) }
{
    out.raw(word)?;
    put_numbered(b" ", number, out)?;
    out.raw(b"\n")
}

/// Appends a line of a word and two machines.
pub fn put_between(word: &[u8], from: NodeId, to: NodeId, out: &mut Out) -> Result<(), NoMemory>
    ensures { Grows out.old result out.new (words (word.now ∷ node_text from ∷ node_text to ∷ [])) }
{
    out.raw(word)?;
    put_next_node(from, out)?;
    put_next_node(to, out)?;
    out.raw(b"\n")
}

/// Appends a line of a word and a client.
pub fn put_client(word: &[u8], client: u32, out: &mut Out) -> Result<(), NoMemory>
    ensures { Grows out.old result out.new (words (word.now ∷ node_text (Client client) ∷ [])) }
{
    out.raw(word)?;
    put_next_node(NodeId::Client(client), out)?;
    out.raw(b"\n")
}

/// Appends a line of a word, a mirror and a number.
pub fn put_of_mirror(
    word: &[u8],
    mirror: MirrorId,
    number: u32,
    out: &mut Out,
) -> Result<(), NoMemory>
    ensures { Grows out.old result out.new (words (word.now ∷ mirror_text mirror ∷ decimal number ∷ [])) }
{
    out.raw(word)?;
    put_next_mirror(mirror, out)?;
    put_numbered(b" ", u64::from(number), out)?;
    out.raw(b"\n")
}

/// Appends a line of a word and of a write of a user: the file, the user, the place and the bytes.
pub fn put_write(
    word: &[u8],
    file: FileId,
    cred: Cred,
    at: u64,
    bytes: &[u8],
    shown: Shown,
    out: &mut Out,
) -> Result<(), NoMemory>
    ensures { Grows out.old result out.new (words (word.now ∷ decimal file.0 ∷ decimal cred.0 ∷ decimal at ∷ text_shown shown bytes.now ∷ [])) }
{
    out.raw(word)?;
    put_numbered(b" ", u64::from(file.0), out)?;
    put_numbered(b" ", u64::from(cred.0), out)?;
    put_numbered(b" ", at, out)?;
    put_last_data(bytes, shown, out)
}

/// Appends the line of a packet.
pub fn put_packet(
    number: u64,
    from: NodeId,
    to: NodeId,
    bytes: &[u8],
    out: &mut Out,
) -> Result<(), NoMemory>
    ensures { Grows out.old result out.new (line_of (entry.Packet number from to bytes.now)) }
{
    put_numbered(b"packet ", number, out)?;
    put_next_node(from, out)?;
    put_next_node(to, out)?;
    put_last_data(bytes, Shown::Whole, out)
}

/// Appends the line of a call that timed out.
pub fn put_timed_out(node: NodeId, xid: u32, out: &mut Out) -> Result<(), NoMemory>
    ensures { Grows out.old result out.new (line_of (entry.TimedOut node xid)) }
{
    out.raw(b"timedout ")?;
    put_node(node, out)?;
    put_numbered(b" ", u64::from(xid), out)?;
    out.raw(b"\n")
}

/// Appends the line of a period that began.
pub fn put_granted(file: FileId, cred: Cred, holder: NodeId, out: &mut Out) -> Result<(), NoMemory>
    ensures { Grows out.old result out.new (line_of (entry.Granted file cred holder)) }
{
    put_numbered(b"granted ", u64::from(file.0), out)?;
    put_numbered(b" ", u64::from(cred.0), out)?;
    put_next_node(holder, out)?;
    out.raw(b"\n")
}

/// Appends the line of a period that ended.
pub fn put_ended(file: FileId, cred: Cred, cause: EndCause, out: &mut Out) -> Result<(), NoMemory>
    ensures { Grows out.old result out.new (line_of (entry.Ended file cred cause)) }
{
    put_numbered(b"ended ", u64::from(file.0), out)?;
    put_numbered(b" ", u64::from(cred.0), out)?;
    put_last(end_word(cause), out)
}

/// Appends why a mirror left, to the line's end.
fn put_left_cause(cause: LeftCause, out: &mut Out) -> Result<(), NoMemory>
    ensures { Grows out.old result out.new (words (left_words cause)) }
{
    match cause {
        LeftCause::Reported => out.raw(b"reported\n"),
        LeftCause::Error(status) => put_counted(b"error", u64::from(status), out),
        LeftCause::Timeouts => out.raw(b"timeouts\n"),
        LeftCause::Unsynced => out.raw(b"unsynced\n"),
    }
}

/// Appends the line of a mirror that left.
#[tactic(auto, using(crate::proofs::Joins::left_line))]
pub fn put_left(
    file: FileId,
    mirror: MirrorId,
    cause: LeftCause,
    out: &mut Out,
) -> Result<(), NoMemory>
    ensures { Grows out.old result out.new (line_of (entry.Left file mirror cause)) }
{
    put_numbered(b"left ", u64::from(file.0), out)?;
    put_next_mirror(mirror, out)?;
    out.raw(b" ")?;
    put_left_cause(cause, out)
}

/// Appends the line of a mirror that came in another's place, or at the end.
pub fn put_swapped(
    file: FileId,
    old: Option<MirrorId>,
    new: MirrorId,
    out: &mut Out,
) -> Result<(), NoMemory>
    ensures { Grows out.old result out.new (line_of (entry.Swapped file old new)) }
{
    put_numbered(b"swapped ", u64::from(file.0), out)?;
    out.raw(b" ")?;
    put_old(old, out)?;
    put_next_mirror(new, out)?;
    out.raw(b"\n")
}

/// Appends the line of a fence.
pub fn put_fenced(
    file: FileId,
    old: Cred,
    new: Cred,
    live: &[MirrorId],
    out: &mut Out,
) -> Result<(), NoMemory>
    ensures { Grows out.old result out.new (line_of (entry.Fenced file old new live.now)) }
{
    put_numbered(b"fenced ", u64::from(file.0), out)?;
    put_numbered(b" ", u64::from(old.0), out)?;
    put_numbered(b" ", u64::from(new.0), out)?;
    put_last_list(live, out)
}

/// Appends the line of a file that nobody holds.
pub fn put_free(file: FileId, live: &[MirrorId], out: &mut Out) -> Result<(), NoMemory>
    ensures { Grows out.old result out.new (line_of (entry.Free file live.now)) }
{
    put_numbered(b"free ", u64::from(file.0), out)?;
    put_last_list(live, out)
}

/// Appends the line of a write to a mirror.
pub fn put_applied(
    mirror: MirrorId,
    cred: Cred,
    at: u64,
    bytes: &[u8],
    shown: Shown,
    out: &mut Out,
) -> Result<(), NoMemory>
    ensures { Grows out.old result out.new (words (words_by (text_shown shown) (entry.Applied mirror cred at bytes.now))) }
{
    out.raw(b"applied ")?;
    put_mirror(mirror, out)?;
    put_numbered(b" ", u64::from(cred.0), out)?;
    put_numbered(b" ", at, out)?;
    put_last_data(bytes, shown, out)
}

/// Appends the line of a commit.
pub fn put_committed(mirror: MirrorId, out: &mut Out) -> Result<(), NoMemory>
    ensures { Grows out.old result out.new (line_of (entry.Committed mirror)) }
{
    out.raw(b"committed ")?;
    put_mirror(mirror, out)?;
    out.raw(b"\n")
}

/// Appends the line of a restart.
pub fn put_restarted(server: u32, pieces: &[Piece], out: &mut Out) -> Result<(), NoMemory>
    ensures { Grows out.old result out.new (line_of (entry.Restarted server pieces.now)) }
{
    out.raw(b"restarted")?;
    put_next_node(NodeId::Server(server), out)?;
    put_last_list(pieces, out)
}

/// Appends the line of a READ that the metadata server answered.
pub fn put_read(
    file: FileId,
    status: u32,
    bytes: &[u8],
    shown: Shown,
    out: &mut Out,
) -> Result<(), NoMemory>
    ensures { Grows out.old result out.new (words (words_by (text_shown shown) (entry.ReadAnswer file status bytes.now))) }
{
    put_numbered(b"read ", u64::from(file.0), out)?;
    put_numbered(b" ", u64::from(status), out)?;
    put_last_data(bytes, shown, out)
}

/// Appends the line of a layout that is to be asked for later.
pub fn put_later(file: FileId, phase: Phase, out: &mut Out) -> Result<(), NoMemory>
    ensures { Grows out.old result out.new (line_of (entry.Later file phase)) }
{
    put_numbered(b"later ", u64::from(file.0), out)?;
    put_last(phase_word(phase), out)
}

/// Appends the line of what a mirror shows.
pub fn put_audit(
    file: FileId,
    mirror: MirrorId,
    length: u64,
    bytes: &[u8],
    shown: Shown,
    out: &mut Out,
) -> Result<(), NoMemory>
    ensures { Grows out.old result out.new (words (words_by (text_shown shown) (entry.Audit file mirror length bytes.now))) }
{
    put_numbered(b"audit ", u64::from(file.0), out)?;
    put_next_mirror(mirror, out)?;
    put_numbered(b" ", length, out)?;
    put_last_data(bytes, shown, out)
}

/// Appends that a request was not done and why, to the line's end.
fn put_failure(why: FailCause, out: &mut Out) -> Result<(), NoMemory>
    ensures { Grows out.old result out.new (words (codes "failed" ∷ fail_words why)) }
{
    out.raw(b"failed")?;
    match why {
        FailCause::Revoked => put_last(b"revoked", out),
        FailCause::AllMirrors => put_last(b"allmirrors", out),
        FailCause::Refused(status) => put_counted(b" refused", u64::from(status), out),
    }
}

/// Appends bytes that were read, and before them `1` where the file ends behind them and else `0`, to
/// the line's end.
fn put_read_bytes(eof: bool, bytes: &[u8], shown: Shown, out: &mut Out) -> Result<(), NoMemory>
    ensures { Grows out.old result out.new (words (answer_by (text_shown shown) (UserAnswer.Bytes eof bytes.now))) }
{
    out.raw(if eof { b"bytes 1 " } else { b"bytes 0 " })?;
    put_data(bytes, shown, out)?;
    out.raw(b"\n")
}

/// Appends what a client answers, to the line's end.
fn put_answer_words(answer: &UserAnswer, shown: Shown, out: &mut Out) -> Result<(), NoMemory>
    ensures { Grows out.old result out.new (words (answer_by (text_shown shown) answer.now)) }
{
    match answer {
        UserAnswer::Opened(file) => put_counted(b"opened", u64::from(file.0), out),
        UserAnswer::Written => out.raw(b"written\n"),
        UserAnswer::Committed { writes } => put_counted(b"committed", u64::from(*writes), out),
        UserAnswer::Bytes { eof, bytes } => put_read_bytes(*eof, bytes.bytes(), shown, out),
        UserAnswer::Returned => out.raw(b"returned\n"),
        UserAnswer::Failed(why) => put_failure(*why, out),
    }
}

/// Appends the line of an answer.
#[tactic(auto, using(crate::proofs::Joins::answer_line))]
pub fn put_answer(
    client: u32,
    answer: &UserAnswer,
    shown: Shown,
    out: &mut Out,
) -> Result<(), NoMemory>
    ensures { Grows out.old result out.new (words (words_by (text_shown shown) (entry.Answer client answer.now))) }
{
    put_numbered(b"answer c", u64::from(client), out)?;
    out.raw(b" ")?;
    put_answer_words(answer, shown, out)
}
