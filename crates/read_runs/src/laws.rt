//! What the answer to a READ through a metadata server rests on, in every run of it.

ghost use Rattle.read_runs.specs.ReadRuns.{EachReadIsAnswered};

/// In every run in which a file is to have at most four mirrors and each compound that comes reads in the form SEQUENCE, PUTFH,
/// READ or does not read, each answer to a READ goes back to its request: the request came as a record, at its start the file
/// had a live list, and then a mirror of that list was asked and its reply has the bytes, or each of them was asked and failed;
/// the reply to the request follows the answer (RFC 8881, section 18.22).
pub fn read_runs()
    ensures answered { EachReadIsAnswered }
{}
