//! Each event of a metadata server is moves of the cluster's machine, which are bound.
#![tactic(auto)]

ghost use Rattle.mds_moves.specs.MdsMoves.{NewIsMdsOf, StaysReached, MdsGoesOn};
ghost use Rattle.mds_moves.specs.MdsBinds.{NewHasOwnWrites, OwnWritesStay, MdsGoesOnBound};

use cluster_laws::{calls_in_range, run_bounds, telling_entries};
use cluster_model::server_guards;

/// A metadata server beside the cluster's machine:
///
/// - a new one is a new machine's, where one to four mirrors are wanted, and there are so many data servers;
/// - each event of it, from any machine that a run comes to, the numbers of whose data servers fit their fields, and whose
///   metadata server it is, is moves: they lead to a machine with the same data servers whose metadata server it is
///   afterwards, and their journal tells what the event's entries tell. Of what comes to it one thing is asked: a record of
///   a data server is no reply, or it is the reply to what went out under its number, and to a call of that server whose
///   numbers fit it says what the machine's data server answered. All else comes as it may, from whomever;
/// - the machine that an event leads to is one that a run comes to again.
pub fn mds_moves()
    ensures begins { NewIsMdsOf }
    ensures goes_on { MdsGoesOn }
    ensures reached { StaysReached }
{
    run_bounds();
    calls_in_range();
    telling_entries();
    server_guards();
}

/// Its moves are bound, as the agreement law asks (RFC 8435, sections 2.2 and 8):
///
/// - a new one has no own writes;
/// - those that it has stand, whatever else comes to the machine;
/// - each event, from where its own writes stand, and with clean ends of periods that are in order, is bound moves, and its
///   own writes stand afterwards: each WRITE of one is of what it took, and it ends when that is covered at each mirror
///   that stays.
pub fn mds_binds()
    ensures begins { NewHasOwnWrites }
    ensures stays { OwnWritesStay }
    ensures goes_on { MdsGoesOnBound }
{
    run_bounds();
    calls_in_range();
    telling_entries();
    server_guards();
}
