//! The sessions of one client.

ghost use Rattle.std.specs.Prelude.{◌≡◌, position, find};
ghost use Rattle.nfs4_session.specs.Clients.{has_number, change_first, remove_first};
ghost use Rattle.nfs4_session.specs.Bindings.{bound_last, called_back};
ghost use Rattle.nfs4_session.specs.Changes.{sessions_begun, sessions_finished};
ghost use Rattle.nfs4_session.specs.Requests.{answer_by_session};
ghost use Rattle.nfs4_session.specs.Turns.{turn_of, kept_in_session};

use crate::session::Session;
use crate::slot::Turn;
use cluster_model::NodeId;
use nfs4_types::{Sequence, Stat4};

/// The place of the session of this number, from 0.
pub fn place_of(sessions: &[Session], number: u64) -> Option<usize>
    ensures { result ≡ position (has_number number) sessions.now }
{
    for (place, session) in sessions.iter().enumerate() {
        if session.number() == number {
            return Some(place);
        }
    }
    None
}

/// What a request comes to on the session of this number.
pub fn turn_in(sessions: &[Session], session: u64, request: &Sequence) -> Turn
    ensures { result ≡ turn_of (answer_by_session request.now (find (has_number session) sessions.now)) }
{
    match place_of(sessions, session) {
        Some(place) => sessions[place].turn(request.slot, request.sequence),
        None => Turn::Refuses(Stat4::BadSession),
    }
}

/// The kept reply of a slot of the session of this number, or no bytes.
pub fn kept_in(sessions: &[Session], session: u64, slot: u32) -> &[u8]
    ensures { result.now ≡ kept_in_session slot (find (has_number session) sessions.now) }
{
    match place_of(sessions, session) {
        Some(place) => sessions[place].kept(slot),
        None => &[],
    }
}

/// A request is in progress on a slot of the session of this number.
pub fn begin_in(sessions: &mut [Session], session: u64, slot: u32, number: u32)
    ensures { sessions.new ≡ sessions_begun session slot number sessions.old }
{
    let Some(place) = place_of(sessions, session) else {
        return;
    };
    let session = &mut sessions[place];
    session.begin(slot, number);
}

/// The request of this number is done on a slot of the session of this number.
pub fn finish_in(sessions: &mut [Session], session: u64, slot: u32, number: u32, reply: &[u8])
    ensures { sessions.new ≡ sessions_finished session slot number reply.now sessions.old }
{
    let Some(place) = place_of(sessions, session) else {
        return;
    };
    let session = &mut sessions[place];
    session.finish(slot, number, reply);
}

/// A callback of the session of this number has the next number.
pub fn call_back_in(sessions: &mut [Session], session: u64)
    ensures { sessions.new ≡ change_first (has_number session) called_back sessions.old }
{
    let Some(place) = place_of(sessions, session) else {
        return;
    };
    let session = &mut sessions[place];
    session.call_back();
}

/// The session of this number is bound to the node, and stands last.
pub fn bind_in(sessions: &mut [Session], session: u64, node: NodeId)
    ensures { sessions.new ≡ bound_last session node sessions.old (find (has_number session) sessions.old) }
{
    let Some(place) = place_of(sessions, session) else {
        return;
    };
    let session = &mut sessions[place];
    session.bind(node);
    sessions[place..].rotate_left(1);
}

/// The session of this number is destroyed.
pub fn destroy_in(sessions: &mut Vec<Session>, session: u64)
    ensures { sessions.new.items ≡ remove_first (has_number session) sessions.old.items }
{
    let Some(place) = place_of(sessions, session) else {
        return;
    };
    sessions.remove(place);
}
