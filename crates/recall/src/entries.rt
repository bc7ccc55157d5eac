//! The entries of a table of recalls. Each function goes through them once.

ghost use Rattle.std.specs.Prelude.{◌≡◌, ◌<◌, ◌≤◌, length, map, find, position, insert, option_map, OnOk, OnErr};
ghost use Rattle.std.specs.List.{list_any, position_or_len};
ghost use Rattle.recall.specs.Recalls.{is_out_as, is_of, is_before, has_expired};
ghost use Rattle.recall.specs.Entries.{grant_in, is_out_to, is_ready, held_as, released, entries_after, ticked};

use crate::kept_recall::{
    Ended, KeptRecall, has_expired, held_as, is_before, is_ended, is_of, is_out_as, is_out_to,
    is_ready, released, ticked,
};
use crate::recall::Recall;
use cluster_model::{Cred, FileId};
use ff_xdr::NoMemory;

/// The place of the first whose callback may go out.
pub fn ready(entries: &[KeptRecall]) -> Option<usize>
    ensures { result ≡ position is_ready entries.now }
{
    for (place, entry) in entries.iter().enumerate() {
        if is_ready(*entry) {
            return Some(place);
        }
    }
    None
}

/// The place of the first whose callback is outstanding under this number.
pub fn outstanding(xid: u32, entries: &[KeptRecall]) -> Option<usize>
    ensures { result ≡ position (λ e. is_out_as xid e.recall.stage) entries.now }
{
    for (place, entry) in entries.iter().enumerate() {
        if is_out_as(xid, entry.recall.stage) {
            return Some(place);
        }
    }
    None
}

/// A recall of this grant is under way.
pub fn is_under_way(file: FileId, cred: Cred, entries: &[KeptRecall]) -> bool
    ensures { result ≡ list_any (λ e. is_of file cred e.recall) entries.now }
{
    for entry in entries {
        if is_of(file, cred, entry.recall) {
            return true;
        }
    }
    false
}

/// The grant of the callback that is outstanding to this client.
pub fn holder(client: u64, entries: &[KeptRecall]) -> Option<(FileId, Cred)>
    ensures { result ≡ option_map grant_in (find (λ e. is_out_to client e.recall) entries.now) }
{
    for entry in entries {
        if is_out_to(client, entry.recall) {
            return Some((entry.recall.file, entry.recall.cred));
        }
    }
    None
}

/// The grant of the first recall that has expired.
pub fn expired(now: u64, entries: &[KeptRecall]) -> Option<(FileId, Cred)>
    ensures { result ≡ option_map grant_in (find (λ e. has_expired now e.recall) entries.now) }
{
    for entry in entries {
        if has_expired(now, entry.recall) {
            return Some((entry.recall.file, entry.recall.cred));
        }
    }
    None
}

/// The place in front of the first that a recall comes before, or behind all.
pub fn place_for(recall: Recall, entries: &[KeptRecall]) -> usize
    ensures exact { result ≡ position_or_len (λ e. is_before recall e.recall) entries.now }
    ensures within { result ≤ length entries.now }
{
    for (place, entry) in entries.iter().enumerate() {
        if is_before(recall, entry.recall) {
            return place;
        }
    }
    entries.len()
}

/// Puts an entry in front of the one at a place. At an error nothing has changed.
pub fn insert(
    place: usize,
    entry: KeptRecall,
    entries: &mut Vec<KeptRecall>,
) -> Result<(), NoMemory>
    requires { place ≤ length entries.old.items }
    ensures ok { OnOk result (entries.new.items ≡ insert entries.old.items place entry) }
    ensures err { OnErr result (entries.new.items ≡ entries.old.items) }
{
    entries.insert(place, entry)?;
    Ok(())
}

/// This grant's callback is outstanding to this client, or none is.
pub fn hold(client: u64, grant: Option<(FileId, Cred)>, entries: &mut [KeptRecall])
    ensures { entries.new ≡ map (held_as client grant) entries.old }
{
    for entry in entries {
        *entry = held_as(client, grant, *entry);
    }
}

/// No callback of these recalls is outstanding.
fn release(ended: Ended, entries: &mut [KeptRecall])
    ensures { entries.new ≡ map (released ended) entries.old }
{
    for entry in entries {
        *entry = released(ended, *entry);
    }
}

/// These recalls are over.
pub fn forget(ended: Ended, entries: &mut Vec<KeptRecall>)
    ensures { entries.new.items ≡ entries_after ended entries.old.items }
{
    entries.retain(|entry| !is_ended(ended, (entry.recall.file, entry.recall.cred)));
    release(ended, entries.as_mut_slice());
}

/// A tick at each of them.
pub fn tick_all(entries: &mut [KeptRecall])
    ensures { entries.new ≡ map ticked entries.old }
{
    for entry in entries {
        *entry = ticked(*entry);
    }
}
