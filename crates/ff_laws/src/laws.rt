//! Worked records, and worked READs.

ghost use Rattle.std.specs.Prelude.{◌≡◌, Some, None};
ghost use Rattle.ff_laws.specs.ReadCalls.{client_read_of, server_read_of};
ghost use Rattle.ff_laws.specs.ReadLaw.{ObeysReads};
ghost use Rattle.ff_laws.specs.WorkedRecords.{client_record, server_record, bytes_behind, operation_behind, no_put_fh, commit_record, short_handle};
ghost use Rattle.ff_laws.specs.WorkedReads.{BreaksReads, the_read, of_server};
ghost use Rattle.ff_laws.specs.WorkedReads.{given_by_the_third, failed_by_all, given_behind_a_swap, given_before_a_late_reply};
ghost use Rattle.ff_laws.specs.WorkedReads.{given_up_at_the_first, kept_from_earlier, failed_by_an_earlier_read};

/// Records that are written out by hand, and what they are read as. No READ of a client has bytes behind it or a further
/// operation, or lacks its PUTFH; no READ to a data server is a COMMIT, which has the same arguments, or has a handle of four
/// bytes.
pub fn worked_records()
    ensures client { client_read_of (client_record 7 1 0 1) ≡ Some the_read }
    ensures server { server_read_of (server_record 10 2 0 1) ≡ Some (of_server 10) }
    ensures no_bytes_behind { client_read_of bytes_behind ≡ None }
    ensures no_operation_behind { client_read_of operation_behind ≡ None }
    ensures of_a_handle { client_read_of no_put_fh ≡ None }
    ensures no_commit { server_read_of commit_record ≡ None }
    ensures of_eight_bytes { server_read_of short_handle ≡ None }
{}

/// The read law, worked out by hand. These journals obey it: a READ that two mirrors fail, and the third gives; one that all
/// fail; one in the middle of which a copied mirror comes in; and one of which a mirror's reply comes too late.
///
/// These break it: a READ that is answered as failed when the first of three mirrors failed it; one that is answered with bytes
/// that the mirror showed before the request came, and not since; and one that failed by a READ of the mirror that was sent
/// before the request came.
pub fn worked_reads()
    ensures third { ObeysReads given_by_the_third }
    ensures all_fail { ObeysReads failed_by_all }
    ensures swap { ObeysReads given_behind_a_swap }
    ensures late { ObeysReads given_before_a_late_reply }
    ensures given_up { BreaksReads given_up_at_the_first }
    ensures kept { BreaksReads kept_from_earlier }
    ensures stale { BreaksReads failed_by_an_earlier_read }
{}
