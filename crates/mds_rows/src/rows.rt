//! The rows that inputs bring: the file's state behind each, and its entries. Room for the entries is made before.

ghost use Rattle.std.specs.Prelude.{◌≡◌, ◌≤◌, ◌+◌, ◌++◌, ◌∷◌, [], length, map, is_some, IsSomeAnd, true, false};
ghost use Rattle.std.specs.Vec.{vec_len, vec_capacity};
ghost use Rattle.cluster_model.specs.declared.phase.Phase.TheVariants as name;
ghost use Rattle.cluster_model.specs.declared.layout_state.LayoutPhase.TheVariants as phase;
ghost use Rattle.cluster_model.specs.declared.entry.Entry.TheVariants as entry;
ghost use Rattle.cluster_model.specs.Nodes.{is_mds};
ghost use Rattle.cluster_model.specs.Phases.{phase_of, holder_of, is_clean, ids_of, left_entries, reported_cause, revoked, own_done, made, fence_done, settled_row, swapped_entries, copied, can_swap_all};
ghost use Rattle.layout_state.specs.Returns.{may_lose};
ghost use Rattle.mds_rows.specs.Rows.{HasRow, AsksForGrant, TakesBack, ends_with, is_all_reported, LosesMirror, free_entry};

use cluster_model::{
    CopyKind, Cred, EndCause, Entry, FileId, LeftCause, Mirror, MirrorId, MirrorIds, Mirrors,
    NodeId, Phase, Reported, SwappedIn, Targets,
};
use ff_xdr::Data;
use layout_state::FileState;

/// The names of these mirrors, in a vector that is empty and has room for four.
pub fn ids_of(live: Mirrors, room: Vec<MirrorId>) -> MirrorIds
    requires empty { room.items ≡ [] }
    requires four { 4 ≤ vec_capacity room }
    ensures { result ≡ ids_of live }
{
    let mut ids = room;
    for place in 0..live.len() {
        let Some(mirror) = live.get(place) else {
            return MirrorIds::from_vec(ids);
        };
        ids.push_reserved(mirror.id);
    }
    MirrorIds::from_vec(ids)
}

/// The file is granted to a node, where it is free and so many users are left.
pub fn ask(
    file: FileId,
    layout: &mut FileState,
    holder: NodeId,
    uids_left: u32,
    entries: &mut Vec<Entry>,
) -> bool
    requires room { vec_len entries.old + 1 ≤ vec_capacity entries.old }
    ensures asks { AsksForGrant file holder uids_left layout.old entries.old.items result layout.new entries.new.items }
    ensures len { vec_len entries.new ≤ vec_len entries.old + 1 }
    ensures capacity { vec_capacity entries.new ≡ vec_capacity entries.old }
{
    let Phase::Free = layout.phase() else {
        return false;
    };
    let Ok(grant) = layout.grant(holder, uids_left) else {
        return false;
    };
    entries.push_reserved(Entry::Granted {
        file,
        cred: grant.cred,
        holder,
    });
    true
}

/// Why the mirrors at these places leave.
fn causes_of(reported: Reported) -> [Option<LeftCause>; 4]
    ensures { result ≡ map reported_cause reported.places }
{
    let [a, b, c, d] = reported.places;
    [cause_if(a), cause_if(b), cause_if(c), cause_if(d)]
}

/// Why a mirror leaves that is reported.
fn cause_if(gone: bool) -> Option<LeftCause>
    ensures { result ≡ reported_cause gone }
{
    if gone {
        Some(LeftCause::Reported)
    } else {
        None
    }
}

/// The places that have a cause.
fn places_of(causes: [Option<LeftCause>; 4]) -> Reported
    ensures { result.places ≡ map is_some causes }
{
    let [a, b, c, d] = causes;
    Reported {
        places: [a.is_some(), b.is_some(), c.is_some(), d.is_some()],
    }
}

/// The entries of the mirrors that leave, at most four.
fn note_left(file: FileId, causes: [Option<LeftCause>; 4], live: Mirrors, entries: &mut Vec<Entry>)
    requires room { vec_len entries.old + 4 ≤ vec_capacity entries.old }
    ensures left { entries.new.items ≡ entries.old.items ++ left_entries file causes live }
    ensures len { vec_len entries.new ≤ vec_len entries.old + 4 }
    ensures capacity { vec_capacity entries.new ≡ vec_capacity entries.old }
{
    for place in 0..live.len() {
        let Some(mirror) = live.get(place) else {
            return;
        };
        note_one(file, mirror, causes[place], entries);
    }
}

/// The entry of a mirror that leaves, where it has a cause.
fn note_one(file: FileId, mirror: Mirror, cause: Option<LeftCause>, entries: &mut Vec<Entry>)
    requires room { vec_len entries.old + 1 ≤ vec_capacity entries.old }
    ensures left { entries.new.items ≡ entries.old.items ++ left_entries file (cause ∷ []) (mirror ∷ []) }
    ensures len { vec_len entries.new ≤ vec_len entries.old + 1 }
    ensures capacity { vec_capacity entries.new ≡ vec_capacity entries.old }
{
    if let Some(cause) = cause {
        entries.push_reserved(Entry::Left {
            file,
            mirror: mirror.id,
            cause,
        });
    }
}

/// Every mirror was reported.
fn is_all_reported(cause: EndCause) -> bool
    ensures { result ≡ is_all_reported cause }
{
    matches!(cause, EndCause::AllReported)
}

/// The entry of a period's end, behind those of the mirrors that leave; where every mirror was reported none leaves.
fn note_end(
    file: FileId,
    cred: Cred,
    causes: [Option<LeftCause>; 4],
    live: Mirrors,
    cause: EndCause,
    entries: &mut Vec<Entry>,
)
    requires room { vec_len entries.old + 5 ≤ vec_capacity entries.old }
    ensures { entries.new.items ≡ entries.old.items ++ ends_with file cred (left_entries file causes live) cause }
{
    if is_all_reported(cause) {
        entries.push_reserved(Entry::Ended { file, cred, cause });
        return;
    }
    note_left(file, causes, live, entries);
    entries.push_reserved(Entry::Ended { file, cred, cause });
}

/// A client returns the layout; false where it does not hold it under this user.
pub fn take_back(
    file: FileId,
    layout: &mut FileState,
    client: u32,
    claimed: Cred,
    reported: Reported,
    next: Cred,
    entries: &mut Vec<Entry>,
) -> bool
    requires room { vec_len entries.old + 5 ≤ vec_capacity entries.old }
    ensures { TakesBack file client claimed reported.places next layout.old entries.old.items result layout.new entries.new.items }
{
    let (live, cred) = (layout.live(), layout.cred());
    let Ok(cause) = layout.take_return(NodeId::Client(client), claimed, reported, next) else {
        return false;
    };
    note_end(file, cred, causes_of(reported), live, cause, entries);
    true
}

/// A mirror fails, and leaves unless it is the last one; false then, with nothing changed.
pub fn lose(
    file: FileId,
    layout: &mut FileState,
    id: MirrorId,
    cause: LeftCause,
    entries: &mut Vec<Entry>,
) -> bool
    requires busy { may_lose (phase_of layout.old.phase) ≡ true }
    requires room { vec_len entries.old + 1 ≤ vec_capacity entries.old }
    ensures loses { LosesMirror file id cause layout.old entries.old.items result layout.new entries.new.items }
    ensures len { vec_len entries.new ≤ vec_len entries.old + 1 }
    ensures capacity { vec_capacity entries.new ≡ vec_capacity entries.old }
{
    if !layout.mirror_failed(id, cause) {
        return false;
    }
    entries.push_reserved(Entry::Left {
        file,
        mirror: id,
        cause,
    });
    true
}

/// The period of a holder ends in another way.
pub fn revoke(
    file: FileId,
    layout: &mut FileState,
    cause: EndCause,
    next: Cred,
    entries: &mut Vec<Entry>,
)
    requires held { is_some (holder_of layout.old.phase) ≡ true }
    requires dirty { is_clean cause ≡ false }
    requires room { vec_len entries.old + 1 ≤ vec_capacity entries.old }
    ensures { HasRow (revoked file layout.old cause next) entries.old.items layout.new entries.new.items }
{
    let cred = layout.cred();
    layout.revoke(cause, next);
    entries.push_reserved(Entry::Ended { file, cred, cause });
}

/// The own write of these bytes is over, which failed at the mirrors that have a cause.
pub fn finish_own(
    file: FileId,
    layout: &mut FileState,
    causes: [Option<LeftCause>; 4],
    at: u64,
    bytes: Data,
    next: Cred,
    entries: &mut Vec<Entry>,
)
    requires own { IsSomeAnd (holder_of layout.old.phase) (λ h. is_mds h ≡ true) }
    requires room { vec_len entries.old + 6 ≤ vec_capacity entries.old }
    ensures { HasRow (own_done file layout.old causes (entry.Told file layout.old.cred at bytes) next) entries.old.items layout.new entries.new.items }
{
    let (live, cred) = (layout.live(), layout.cred());
    let cause = layout.own_done(places_of(causes), next);
    if is_all_reported(cause) {
        entries.push_reserved(Entry::Ended { file, cred, cause });
        return;
    }
    note_left(file, causes, live, entries);
    entries.push_reserved(Entry::Told {
        file,
        cred,
        at,
        bytes,
    });
    entries.push_reserved(Entry::Ended { file, cred, cause });
}

/// The entry of a file that nobody holds.
fn note_free(file: FileId, live: Mirrors, room: Vec<MirrorId>, entries: &mut Vec<Entry>)
    requires empty { room.items ≡ [] }
    requires four { 4 ≤ vec_capacity room }
    requires room { vec_len entries.old + 1 ≤ vec_capacity entries.old }
    ensures { entries.new.items ≡ entries.old.items ++ entry.Free file (ids_of live) ∷ [] }
{
    entries.push_reserved(Entry::Free {
        file,
        live: ids_of(live, room),
    });
}

/// The entry of a file that is free, where it is.
fn note_if_free(file: FileId, layout: &FileState, room: Vec<MirrorId>, entries: &mut Vec<Entry>)
    requires empty { room.items ≡ [] }
    requires four { 4 ≤ vec_capacity room }
    requires room { vec_len entries.old + 1 ≤ vec_capacity entries.old }
    ensures { entries.new.items ≡ entries.old.items ++ free_entry file layout.now.live (phase_of layout.now.phase) }
{
    if let Phase::Free = layout.phase() {
        note_free(file, layout.live(), room, entries);
    }
}

/// The mirrors of a new file are made, and it is free.
pub fn make(
    file: FileId,
    layout: &mut FileState,
    live: Mirrors,
    room: Vec<MirrorId>,
    entries: &mut Vec<Entry>,
)
    requires making { phase_of layout.old.phase ≡ name.Making }
    requires some { 1 ≤ length live }
    requires wanted { length live ≤ layout.old.wanted }
    requires empty { room.items ≡ [] }
    requires four { 4 ≤ vec_capacity room }
    requires room { vec_len entries.old + 1 ≤ vec_capacity entries.old }
    ensures { HasRow (made file layout.old live) entries.old.items layout.new entries.new.items }
{
    layout.made(live);
    note_free(file, live, room, entries);
}

/// Each mirror of the fence acknowledged or left.
pub fn finish_fence(
    file: FileId,
    layout: &mut FileState,
    fenced: Vec<MirrorId>,
    free: Vec<MirrorId>,
    entries: &mut Vec<Entry>,
)
    requires fencing { phase_of layout.old.phase ≡ name.Fencing }
    requires fenced_empty { fenced.items ≡ [] }
    requires fenced_four { 4 ≤ vec_capacity fenced }
    requires free_empty { free.items ≡ [] }
    requires free_four { 4 ≤ vec_capacity free }
    requires room { vec_len entries.old + 2 ≤ vec_capacity entries.old }
    ensures { HasRow (fence_done file layout.old) entries.old.items layout.new entries.new.items }
{
    let (old, live) = (layout.cred(), layout.live());
    layout.fence_done();
    entries.push_reserved(Entry::Fenced {
        file,
        old,
        new: layout.cred(),
        live: ids_of(live, fenced),
    });
    note_if_free(file, layout, free, entries);
}

/// The source is committed: a copy by the user `next` begins, or the file is free.
pub fn settle(
    file: FileId,
    layout: &mut FileState,
    copies: CopyKind,
    next: Cred,
    room: Vec<MirrorId>,
    entries: &mut Vec<Entry>,
)
    requires settling { layout.old.phase ≡ phase.Settling copies }
    requires empty { room.items ≡ [] }
    requires four { 4 ≤ vec_capacity room }
    requires room { vec_len entries.old + 1 ≤ vec_capacity entries.old }
    ensures { HasRow (settled_row file layout.old copies next) entries.old.items layout.new entries.new.items }
{
    layout.settled(next);
    note_if_free(file, layout, room, entries);
}

/// The entries of mirrors that come into the live list.
fn note_swapped(file: FileId, targets: &[SwappedIn], entries: &mut Vec<Entry>)
    requires room { vec_len entries.old + length targets.now ≤ vec_capacity entries.old }
    ensures { entries.new.items ≡ entries.old.items ++ swapped_entries file targets.now }
{
    for target in targets {
        entries.push_reserved(Entry::Swapped {
            file,
            old: target.old,
            new: target.new.id,
        });
    }
}

/// The targets come into the live list, and the fence to the user `next` begins; with none left the file is free.
pub fn swap_in(
    file: FileId,
    layout: &mut FileState,
    copier: Cred,
    copies: CopyKind,
    targets: &Targets,
    next: Cred,
    room: Vec<MirrorId>,
    entries: &mut Vec<Entry>,
)
    requires copying { layout.old.phase ≡ phase.Copying copier copies }
    requires fits { can_swap_all targets.now layout.old.live ≡ true }
    requires few { length targets.now ≤ 4 }
    requires empty { room.items ≡ [] }
    requires four { 4 ≤ vec_capacity room }
    requires room { vec_len entries.old + 4 ≤ vec_capacity entries.old }
    ensures { HasRow (copied file layout.old copier targets.now next) entries.old.items layout.new entries.new.items }
{
    layout.copied(targets, next);
    if targets.as_slice().is_empty() {
        note_free(file, layout.live(), room, entries);
        return;
    }
    note_swapped(file, targets.as_slice(), entries);
}
