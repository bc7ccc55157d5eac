//! What holds of every run of a client.
#![tactic(auto)]

ghost use Rattle.client_laws.specs.ClientRunLaws.{InEachRun, SendsAlone, TellsCommitted, ReturnsCommitted, KeepsSilent, WritesApart};
ghost use Rattle.client_laws.specs.RecallLaws.{KeepsRecalled, RecalledGoes};

/// In every run of a client, whatever bytes come to it:
///
/// - a new compound goes out only where a reply to each one before was heard (RFC 8881, section 2.10.6: it has one slot);
/// - a write is told only where it was taken under a uid under which a layout was granted before, and either an OK COMMIT
///   at each of the layout's mirrors has the verifier of an OK WRITE of it before, or a LAYOUTRETURN of the layout was
///   sent and accepted that reported each of the other mirrors, where the write was covered at the rest when it was sent
///   (RFC 1813, section 3.3.21; RFC 8435, section 5);
/// - a LAYOUTRETURN goes out only where its layout was granted and not taken away since, and each write that was taken
///   under it is so covered at each mirror that it does not report (RFC 8435, sections 6 and 9);
/// - once a recall of a layout was answered OK, under a session and a number that no callback had before, at every later
///   moment a LAYOUTRETURN of it was sent, or the user was answered since that it was taken away, or the client has it
///   still and takes no write under it (RFC 8881, sections 12.5.5 and 20.3).
///
/// And where no two LAYOUTGETs were granted one uid (RFC 8435, section 2.2):
///
/// - once a LAYOUTRETURN of a layout was sent, or the user was answered that it was taken away, no call to a data server
///   goes out under its uid, new or repeated, and no write is taken under it (RFC 8435, section 2.2);
/// - the writes that are taken under one uid have no place in common, and a WRITE that goes out under it is one of them,
///   unless it is the stray write of a client that left the protocol;
/// - once a recall of a layout was answered OK, under a session and a number that no callback had before, no write is
///   taken under it (RFC 8881, sections 12.5.5 and 20.3).
pub fn client_run_law()
    ensures alone { InEachRun SendsAlone }
    ensures told { InEachRun TellsCommitted }
    ensures returns { InEachRun ReturnsCommitted }
    ensures silent { InEachRun KeepsSilent }
    ensures once { InEachRun WritesApart }
    ensures recalled { InEachRun KeepsRecalled }
    ensures goes { RecalledGoes }
{}
