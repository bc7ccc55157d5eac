//! What holds of recalls in every run of them.

ghost use Rattle.recall.specs.RecallLaws.{RecallLaw};

/// Whatever calls are made: what is under way was asked and has not ended; the outcome of an answer or a timeout is that of
/// the callback that is outstanding under its number; who is told to have expired was asked more than 90 s ago, and where
/// nobody is, nobody was; a callback that goes out is of a recall that is under way; and at most one is outstanding to a
/// client (RFC 8881, sections 12.5.5.1 and 20.3).
pub fn recall_law()
    ensures { RecallLaw }
{}
