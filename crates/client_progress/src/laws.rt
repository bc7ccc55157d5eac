//! What holds of each step of a client, and of every run of it.

ghost use Rattle.std.specs.Prelude.{ℕ, ◌≡◌, false};
ghost use Rattle.client_state.specs.ClientStates.{ClientValue};
ghost use Rattle.client_laws.specs.ClientHistory.{ClientInput, Ticked, input_step};
ghost use Rattle.client_progress.specs.Going.{AsksAtTick, AwaitsNoTick, AwaitsOwnMirrors, BehindEachEvent, HasCalledMirrors, HasSentAnew, IsNeverStuck, ReturnsByCompound};
ghost use Rattle.client_progress.specs.Pace.{PacesInput};

use client_calls::client_law;

/// Whatever a client has and whatever comes to it, a record that went before goes out again only so (RFC 8881, section
/// 2.10.6.2; RFC 5531, section 4):
///
/// - at a tick, the one compound that is outstanding, once;
/// - for a timeout, once, under the number of the call that the timeout's entry names;
/// - for a request of the user or a record that comes, none, and none where the client left the protocol.
///
/// So what is to be asked again later waits for a tick, and a node that is given no tick twice at one moment sends it
/// once for each moment.
pub fn pace_law()
    ensures { (input : ClientInput) (c : ClientValue) → PacesInput input c }
{
    client_law();
}

/// Behind a tick nothing of a client that has not left the protocol waits for a tick, whatever it has: not the request at
/// the head of its queue, not the return of its layout, and not the record of a compound. So what is to be asked again
/// later is asked again at the very next moment.
pub fn moment_law()
    ensures { (now : ℕ) (c : ClientValue) → c.has_left ≡ false → AwaitsNoTick (input_step (Ticked now) c).client }
{}

/// Of every run of a client, whatever comes to it, behind each event:
///
/// - while a number is left for its next call, a client with a request at the head of its queue, or with a layout that is
///   to be given back, is never stuck: a call of it is outstanding, whose answer it awaits, or it is asked
///   again at the next tick. The call is the one compound, or a call to a mirror of its layout at its data server.
/// - behind a tick such a client has a call outstanding, where it has not left the protocol;
/// - what is outstanding at the data server of a mirror of its layout is the call that is out at this mirror, so each such
///   call is awaited;
/// - where the return of its layout has begun, its LAYOUTRETURN is the compound that is outstanding, or goes out anew
///   (RFC 8881, section 18.44);
/// - while a number is left, nothing that is to go out anew, since its reply was not kept, is left behind (RFC 8881,
///   section 2.10.6.2), and to no mirror of its layout a call waits: each one that has a write to send, or is to commit,
///   has a call out.
pub fn going_law()
    ensures goes { BehindEachEvent IsNeverStuck }
    ensures ticks { BehindEachEvent AsksAtTick }
    ensures own { BehindEachEvent AwaitsOwnMirrors }
    ensures returns { BehindEachEvent ReturnsByCompound }
    ensures anew { BehindEachEvent HasSentAnew }
    ensures mirrors { BehindEachEvent HasCalledMirrors }
{}
