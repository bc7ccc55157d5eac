//! The records that a client sends, in every run.

ghost use Rattle.client_records.specs.ClientRecords.{EachRunIsSpelled, EachRunIsNumbered};

/// In every run of a client, whatever comes and in whichever order:
///
/// - each call that it sends has a spelling: its numbers fit their fields, and its lengths are within their maxima (RFC
///   1813, section 3.3; RFC 8881, section 18); and the number of each reply to a callback has four bytes (RFC 5531, section
///   9). It is so where the numbers with which the client starts fit their fields, what users ask is in range, and records
///   are of bytes;
/// - each new call has a number of its own, above those of all calls before it and from the first number on, and each
///   repeat is of a call that went out before: of a compound the same record (RFC 5531, section 9; RFC 8881, section
///   2.10.6). It is so whatever comes.
pub fn client_records()
    ensures spelled { EachRunIsSpelled }
    ensures numbered { EachRunIsNumbered }
{}
