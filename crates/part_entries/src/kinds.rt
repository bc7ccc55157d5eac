//! The kinds of entries, by the first word of their line.

use crate::answers::read_user_answer;
use crate::events::{
    read_delivered, read_hold, read_packet, read_pass, read_rebooted, read_restarted, read_tick,
    read_timed_out, read_turned,
};
use crate::files::{Write, read_answered, read_ended, read_granted, read_later, read_write};
use crate::mirrors::{
    read_applied, read_audit, read_committed, read_failed, read_fenced, read_free, read_left,
    read_owner, read_swapped,
};
use cluster_model::Entry;
use row_words::Words;

/// A kind of entry.
#[derive(Clone, Copy)]
enum Kind {
    Packet,
    Delivered,
    TimedOut,
    Hold,
    Pass,
    Tick,
    Granted,
    Sent,
    Rogue,
    Turned,
    Told,
    Ended,
    Left,
    Swapped,
    Fenced,
    Free,
    Applied,
    Committed,
    Owner,
    Restarted,
    Read,
    Failed,
    Later,
    Answer,
    Audit,
    Rebooted,
}

/// The first word of each kind.
const KINDS: [(&str, Kind); 26] = [
    ("packet", Kind::Packet),
    ("delivered", Kind::Delivered),
    ("timedout", Kind::TimedOut),
    ("hold", Kind::Hold),
    ("pass", Kind::Pass),
    ("tick", Kind::Tick),
    ("granted", Kind::Granted),
    ("sent", Kind::Sent),
    ("rogue", Kind::Rogue),
    ("turned", Kind::Turned),
    ("told", Kind::Told),
    ("ended", Kind::Ended),
    ("left", Kind::Left),
    ("swapped", Kind::Swapped),
    ("fenced", Kind::Fenced),
    ("free", Kind::Free),
    ("applied", Kind::Applied),
    ("committed", Kind::Committed),
    ("owner", Kind::Owner),
    ("restarted", Kind::Restarted),
    ("read", Kind::Read),
    ("failed", Kind::Failed),
    ("later", Kind::Later),
    ("answer", Kind::Answer),
    ("audit", Kind::Audit),
    ("rebooted", Kind::Rebooted),
];

/// The kind with this word.
fn kind_named(word: &str) -> Option<Kind> {
    for (name, kind) in KINDS {
        if name == word {
            return Some(kind);
        }
    }
    None
}

/// The entry of this kind, of which the words say the rest.
fn read_rest(kind: Kind, words: &mut Words<'_>) -> Entry {
    match kind {
        Kind::Packet => read_packet(words),
        Kind::Delivered => read_delivered(words),
        Kind::TimedOut => read_timed_out(words),
        Kind::Hold => read_hold(words),
        Kind::Pass => read_pass(words),
        Kind::Tick => read_tick(words),
        Kind::Granted => read_granted(words),
        Kind::Sent => read_write(Write::Sent, words),
        Kind::Rogue => read_write(Write::Rogue, words),
        Kind::Turned => read_turned(words),
        Kind::Told => read_write(Write::Told, words),
        Kind::Ended => read_ended(words),
        Kind::Left => read_left(words),
        Kind::Swapped => read_swapped(words),
        Kind::Fenced => read_fenced(words),
        Kind::Free => read_free(words),
        Kind::Applied => read_applied(words),
        Kind::Committed => read_committed(words),
        Kind::Owner => read_owner(words),
        Kind::Restarted => read_restarted(words),
        Kind::Read => read_answered(words),
        Kind::Failed => read_failed(words),
        Kind::Later => read_later(words),
        Kind::Answer => read_user_answer(words),
        Kind::Audit => read_audit(words),
        Kind::Rebooted => read_rebooted(words),
    }
}

/// The entry that a line of the trace says, where its kind is one.
pub fn read_entry(words: &mut Words<'_>) -> Option<Entry> {
    match kind_named(words.word()) {
        Some(kind) => Some(read_rest(kind, words)),
        None => None,
    }
}
