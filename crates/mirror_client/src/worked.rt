//! Runs of a client that are worked out by hand.

ghost use Rattle.std.specs.Prelude.{◌≡◌};
ghost use Rattle.mirror_client.specs.ClientRuns.{seen_in};
ghost use Rattle.nfs4_types.specs.declared.status.Stat4.TheVariants as stat;
ghost use Rattle.mirror_client.specs.WorkedWays.{recall_status, own_recall, own_recall_seen, other_recall, other_recall_seen, through, through_seen, giving_back, giving_back_seen, deferring, deferring_seen, refusing, refusing_seen, unknown, unknown_seen, written_again, written_again_seen, last_number, numberless, numberless_seen, leaving, leaving_seen};
ghost use Rattle.mirror_client.specs.WorkedClient.{client, unopened, unopened_seen, opening, opening_seen, writing, writing_seen, committing, committing_seen, overlapping, overlapping_seen, reporting, reporting_seen, reported, reported_seen, taken_away, taken_away_seen, all_failed, all_failed_seen, session_gone, session_gone_seen, retried, retried_seen, renewing, renewing_seen};

/// What the rule of a client makes of runs that are worked out by hand: the journal, all that goes out, and
/// what is outstanding at the end. A request before a file is open; the conversation of one file; a write over
/// another; a mirror that times out, and what is told once it is reported; a layout that is taken away, and
/// one whose mirrors all failed; a session that is gone; a request that is sent again; a lease that is renewed.
pub fn worked_client_runs()
    ensures unopened { seen_in client unopened ≡ unopened_seen }
    ensures opening { seen_in client opening ≡ opening_seen }
    ensures writing { seen_in client writing ≡ writing_seen }
    ensures committing { seen_in client committing ≡ committing_seen }
    ensures overlapping { seen_in client overlapping ≡ overlapping_seen }
    ensures reporting { seen_in client reporting ≡ reporting_seen }
    ensures reported { seen_in client reported ≡ reported_seen }
    ensures taken_away { seen_in client taken_away ≡ taken_away_seen }
    ensures all_failed { seen_in client all_failed ≡ all_failed_seen }
    ensures session_gone { seen_in client session_gone ≡ session_gone_seen }
    ensures retried { seen_in client retried ≡ retried_seen }
    ensures renewing { seen_in client renewing ≡ renewing_seen }
{}

/// More of them: recalls of this layout, of another, of one that came before and of one out of order; a write
/// through the metadata server behind a layout's return; returns; requests that are refused; a data server
/// that lost a write; a client without numbers; and one that leaves the protocol.
pub fn worked_client_ways()
    ensures own_recall { seen_in client own_recall ≡ own_recall_seen }
    ensures own_layout { recall_status writing 1 65536 ≡ stat.Ok }
    ensures other_recall { seen_in client other_recall ≡ other_recall_seen }
    ensures other_layout { recall_status writing 1 65537 ≡ stat.NoMatchingLayout }
    ensures again { recall_status other_recall 1 65536 ≡ stat.NoMatchingLayout }
    ensures out_of_order { recall_status other_recall 3 65536 ≡ stat.SeqMisordered }
    ensures through { seen_in client through ≡ through_seen }
    ensures giving_back { seen_in client giving_back ≡ giving_back_seen }
    ensures deferring { seen_in client deferring ≡ deferring_seen }
    ensures refusing { seen_in client refusing ≡ refusing_seen }
    ensures unknown { seen_in client unknown ≡ unknown_seen }
    ensures written_again { seen_in client written_again ≡ written_again_seen }
    ensures numberless { seen_in last_number numberless ≡ numberless_seen }
    ensures leaving { seen_in client leaving ≡ leaving_seen }
{}
