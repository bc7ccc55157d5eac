//! Laws of slots and of the table.

ghost use Rattle.nfs4_session.specs.SlotsLaw.{EachOnce};
ghost use Rattle.nfs4_session.specs.TableLaw.{KeepsTable};

/// Over every list of requests with repeats, the kth that takes effect on a slot has the number k modulo 2^32:
/// among 2^32 that follow each other no number takes effect twice (RFC 8881, section 2.10.6).
pub fn slots_law()
    ensures { EachOnce }
{}

/// Over every list of calls, client ids and sessions' numbers are given once, and an owner has at most one
/// confirmed record and one that is not (RFC 8881, section 2.4).
pub fn table_law()
    ensures { KeepsTable }
{}
