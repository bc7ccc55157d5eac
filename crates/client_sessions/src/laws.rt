//! A client's session, its layouts and its writes, in every run.

ghost use Rattle.client_laws.specs.ClientRunLaws.{InEachRun};
ghost use Rattle.client_sessions.specs.ClientSessions.{KeepsSlot, EachRunSaysWho};
ghost use Rattle.client_sessions.specs.LayoutEnds.{AsksForOne, ReturnsOwn, EntersGranted, CallsGranted, EachRunStraysAtOnce, EachRunTakesBytes};
ghost use Rattle.client_sessions.specs.FittingCalls.{EachRunAsksFit};
ghost use Rattle.client_sessions.specs.EnteredFiles.{EntersForFile};
ghost use Rattle.client_sessions.specs.SessionRounds.{EachRunKeepsRounds};

/// In every run of a client, whatever comes and in whichever order:
///
/// - each compound bears the client's name, and an EXCHANGE_ID the verifier of its start (RFC 8881, section 18.35);
/// - a CREATE_SESSION has the id and the number that the last EXCHANGE_ID was answered with; and a request is on the session
///   that the last CREATE_SESSION was answered with, with the number 1, or on the one of the request before, with the number
///   that the reply to that one leaves (RFC 8881, sections 2.10.6.1, 15.1.11.1 and 18.36);
/// - a LAYOUTGET goes out only where each one before was answered, and the layout that it granted, if it did, has ended (RFC
///   8881, sections 12.5.5 and 18.43; RFC 8435, section 2.2);
/// - a LAYOUTRETURN is of a layout that was granted on its session for its file (RFC 8881, section 18.44);
/// - a write is taken and strays under a layout that was granted, and none is taken once the client left the protocol; it is
///   told where it was taken and is covered at each mirror of the layout, or at each that an accepted LAYOUTRETURN of it does
///   not report, and some mirror is not reported (RFC 8435, sections 2.2 and 5);
/// - a call to a data server goes out under the uid of a layout that was granted;
/// - a write that strays goes out at once, under its uid;
/// - no write that is taken is empty, where users ask for no empty one.
pub fn client_sessions()
    ensures who { EachRunSaysWho }
    ensures slot { InEachRun KeepsSlot }
    ensures asks { InEachRun AsksForOne }
    ensures returns { InEachRun ReturnsOwn }
    ensures enters { InEachRun EntersGranted }
    ensures calls { InEachRun CallsGranted }
    ensures strays { EachRunStraysAtOnce }
    ensures bytes { EachRunTakesBytes }
{}

/// In every run of a client, whatever comes and in whichever order, the numbers of each compound fit their forms, where the numbers
/// with which the client starts fit their fields, what users ask is in range, and records are of bytes:
///
/// - a session's id has sixteen bytes, and a compound at most sixteen operations (RFC 8881, section 18.46);
/// - a LAYOUTGET is of a file whose number has eight bytes (RFC 8881, section 18.43);
/// - so is a LAYOUTRETURN, whose report names data servers by numbers of eight bytes and has a spelling (RFC 8881, section
///   18.44; RFC 8435, section 9.1.1).
pub fn fitting_calls()
    ensures fit { EachRunAsksFit }
{}

/// In every run of a client, whatever comes and in whichever order, a write is taken, strays and is told for a file for which a
/// layout was granted, and under the uid of that layout: the reply that granted it was to a LAYOUTGET of this file (RFC 8881,
/// section 18.43; RFC 8435, section 2.2).
pub fn entered_files()
    ensures files { InEachRun EntersForFile }
{}

/// In every run of a client in which no used number of a slot is the last of all, whatever comes and in whichever order, each
/// request goes out in a round: behind an EXCHANGE_ID and the CREATE_SESSION of its answer nothing went out but requests on the
/// session that this one was answered with; they are numbered one by one, and a number stands again only where the request that
/// had it was refused at its SEQUENCE (RFC 8881, sections 2.10.6.1, 18.35 and 18.36).
pub fn session_rounds()
    ensures rounds { EachRunKeepsRounds }
{}
