//! The mirrors of a writer.

ghost use Rattle.std.specs.Prelude.{◌≡◌, ◌++◌, ◌<◌, ◌==◌, ◌&&◌, ◌||◌, not, true, false, length, IfOk, OnOk, IfSome, map, position, take, replicate, slice_get, slice_set, option_map, Option, Some, None};
ghost use Rattle.std.specs.List.{All, list_all, list_any, find};
ghost use Rattle.cluster_model.specs.DsCalls.{plain_ds_reply};
ghost use Rattle.cluster_model.specs.Journal.{is_mirror};
ghost use Rattle.mirror_writer.specs.Writers.{new_mirror, is_committed, open_committed, is_some_call, next_at, is_call, queued, with_out, covered_flag, covered_in};
ghost use Rattle.mirror_writer.specs.Rooms.{mirrors_shown, has_failed_in, HasSpareRoom, CanSend};
ghost use Rattle.mirror_writer.specs.MirrorSteps.{StepsAt, SetsAt, NextOf, answered_there, late_there};

use crate::call::{MirrorOutcome, NextCall, WriterCall};
use crate::mirror::MirrorWrites;
use cluster_model::{DsReply, MirrorId, Mirrors};
use ff_xdr::NoMemory;
use std::alloc::Global;

/// Mirrors to which nothing was sent.
pub fn open_all(alloc: Global, mirrors: Mirrors) -> Result<Vec<MirrorWrites>, NoMemory>
    ensures { IfOk result (λ all. mirrors_shown all.items ≡ map new_mirror mirrors) }
{
    let mut all = Vec::new(alloc);
    for place in 0..mirrors.len() {
        let Some(mirror) = mirrors.get(place) else {
            return Ok(all);
        };
        all.push(MirrorWrites::new(alloc, mirror))?;
    }
    Ok(all)
}

/// Room at each of them for one more write.
pub fn reserve_all(mirrors: &mut [MirrorWrites]) -> Result<(), NoMemory>
    ensures same { mirrors_shown mirrors.new ≡ mirrors_shown mirrors.old }
    ensures ok { OnOk result (All HasSpareRoom mirrors.new) }
{
    for mirror in mirrors {
        mirror.reserve()?;
    }
    Ok(())
}

/// The taken write of this number waits at each of them. Takes no memory.
pub fn queue_all(n: usize, mirrors: &mut [MirrorWrites])
    requires { All HasSpareRoom mirrors.old }
    ensures { mirrors_shown mirrors.new ≡ map (queued n) (mirrors_shown mirrors.old) }
{
    for mirror in mirrors {
        mirror.queue(n);
    }
}

/// The place of the first to which a call waits.
pub fn waiting(wants_commit: bool, mirrors: &[MirrorWrites]) -> Option<usize>
    ensures found { result ≡ position (λ r. is_some_call (next_at wants_commit r.mirror)) mirrors.now }
    ensures within { IfSome result (λ place. place < length mirrors.now) }
{
    for (place, mirror) in mirrors.iter().enumerate() {
        if mirror.next(wants_commit).is_some() {
            return Some(place);
        }
    }
    None
}

/// The place of the one whose call has this number.
pub fn outstanding(xid: u32, mirrors: &[MirrorWrites]) -> Option<usize>
    ensures found { result ≡ position (λ r. is_call xid r.mirror.call) mirrors.now }
    ensures within { IfSome result (λ place. place < length mirrors.now) }
{
    for (place, mirror) in mirrors.iter().enumerate() {
        if mirror.is_call(xid) {
            return Some(place);
        }
    }
    None
}

/// What goes out next to the one at this place, where a call may, and its name.
pub fn next_of(
    wants_commit: bool,
    place: usize,
    mirrors: &[MirrorWrites],
) -> Option<(MirrorId, NextCall)>
    requires { place < length mirrors.now }
    ensures { NextOf wants_commit (slice_get (mirrors_shown mirrors.now) place) result }
{
    let mirror = &mirrors[place];
    let next = mirror.next(wants_commit)?;
    Some((mirror.id(), next))
}

/// The call to the one at this place is out.
pub fn send_at(xid: u32, next: NextCall, place: usize, mirrors: &mut [MirrorWrites])
    requires within { place < length mirrors.old }
    requires first { IfSome (slice_get (mirrors_shown mirrors.old) place) (CanSend next) }
    ensures { SetsAt (mirrors_shown mirrors.old) place (with_out xid next) (mirrors_shown mirrors.new) }
{
    let mirror = &mut mirrors[place];
    mirror.send(xid, next);
}

/// What the answer to the call of the one at this place comes to.
pub fn answer_at(
    reply: &DsReply<'_>,
    place: usize,
    mirrors: &mut [MirrorWrites],
) -> (MirrorId, MirrorOutcome)
    requires { place < length mirrors.old }
    ensures { StepsAt (λ m. answered_there m (plain_ds_reply reply.now) m.call) (mirrors_shown mirrors.old) place result.0 result.1 (mirrors_shown mirrors.new) }
{
    let mirror = &mut mirrors[place];
    let id = mirror.id();
    (id, mirror.answer(reply))
}

/// What a timeout of the call of the one at this place comes to.
pub fn time_out_at(place: usize, mirrors: &mut [MirrorWrites]) -> (MirrorId, MirrorOutcome)
    requires { place < length mirrors.old }
    ensures { StepsAt (λ m. late_there m m.call) (mirrors_shown mirrors.old) place result.0 result.1 (mirrors_shown mirrors.new) }
{
    let mirror = &mut mirrors[place];
    let id = mirror.id();
    (id, mirror.time_out())
}

/// Each of them is committed.
pub fn all_committed(mirrors: &[MirrorWrites]) -> bool
    ensures { result ≡ list_all (λ r. is_committed r.mirror) mirrors.now }
{
    for mirror in mirrors {
        if !mirror.is_committed() {
            return false;
        }
    }
    true
}

/// Each of them that has not failed is committed.
pub fn open_committed(mirrors: &[MirrorWrites]) -> bool
    ensures { result ≡ list_all (λ r. r.mirror.has_failed || is_committed r.mirror) mirrors.now }
{
    for mirror in mirrors {
        if !mirror.has_failed() && !mirror.is_committed() {
            return false;
        }
    }
    true
}

/// The call of this number is outstanding to one of them.
pub fn some_out(xid: u32, mirrors: &[MirrorWrites]) -> bool
    ensures { result ≡ list_any (λ r. is_call xid r.mirror.call) mirrors.now }
{
    for mirror in mirrors {
        if mirror.is_call(xid) {
            return true;
        }
    }
    false
}

/// One of them has not failed and is committed.
pub fn some_committed(mirrors: &[MirrorWrites]) -> bool
    ensures { result ≡ list_any (λ r. not r.mirror.has_failed && is_committed r.mirror) mirrors.now }
{
    for mirror in mirrors {
        if !mirror.has_failed() && mirror.is_committed() {
            return true;
        }
    }
    false
}

/// The mirror at this place has failed; false where there is none.
fn failed_at(place: usize, mirrors: &[MirrorWrites]) -> bool
    ensures { result ≡ has_failed_in (slice_get mirrors.now place) }
{
    match mirrors.get(place) {
        None => false,
        Some(mirror) => mirror.has_failed(),
    }
}

/// For each of the first four places, whether the mirror there has failed.
#[tactic(auto, using(crate::proofs::Shown::four_places))]
pub fn failed_places(mirrors: &[MirrorWrites]) -> [bool; 4]
    ensures { result ≡ take 4 (map (λ m. m.has_failed) (mirrors_shown mirrors.now) ++ replicate 4 false) }
{
    [
        failed_at(0, mirrors),
        failed_at(1, mirrors),
        failed_at(2, mirrors),
        failed_at(3, mirrors),
    ]
}

/// The taken write of this number is covered at the one of this name.
pub fn covers_at(n: usize, id: MirrorId, mirrors: &[MirrorWrites]) -> bool
    ensures { result ≡ covered_in n (option_map (λ r. r.mirror) (find (λ r. is_mirror id r.mirror.id) mirrors.now)) }
{
    for mirror in mirrors {
        if id == mirror.id() {
            return mirror.covers(n);
        }
    }
    false
}

/// The name and the call of the first of them on this server.
pub fn first_on(server: u32, mirrors: &[MirrorWrites]) -> Option<(MirrorId, WriterCall)>
    ensures { result ≡ option_map (λ r. (r.mirror.id, r.mirror.call)) (find (λ r. r.mirror.id.server == server) mirrors.now) }
{
    for mirror in mirrors {
        if mirror.id().server == server {
            return Some((mirror.id(), mirror.call()));
        }
    }
    None
}

/// The taken write of this number is covered at each of them.
pub fn all_cover(n: usize, mirrors: &[MirrorWrites]) -> bool
    ensures { result ≡ list_all (λ r. covered_flag (slice_get r.mirror.covered n)) mirrors.now }
{
    for mirror in mirrors {
        if !mirror.covers(n) {
            return false;
        }
    }
    true
}

/// Each of them has failed.
pub fn all_failed(mirrors: &[MirrorWrites]) -> bool
    ensures { result ≡ list_all (λ r. r.mirror.has_failed) mirrors.now }
{
    for mirror in mirrors {
        if !mirror.has_failed() {
            return false;
        }
    }
    true
}
