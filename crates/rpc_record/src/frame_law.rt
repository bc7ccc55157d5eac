ghost use Rattle.std.specs.Prelude.{ℕ, List};
ghost use Rattle.rpc_record.specs.FrameLaws.{Fragment, IsRecordRead, IsRecordSpelled, IsMarkedRead, IsLongJustWhere, IsTooManyJustWhere, StandsBefore, HasOneReading};

/// The laws of record marking (RFC 5531, section 11), of every stream. A record in fragments within
/// both limits is read as the record, and what is read stands in such fragments. What is written as
/// one fragment is read again. A stream is refused just where a header passes a limit: that of the
/// length, or that of the fragments where it does not pass the other. What stands at the front of a
/// stream stands whatever follows. A stream has one list of records, however it was cut.
pub fn every_stream()
    ensures record { (fragments : List Fragment) (rest : List ℕ) → IsRecordRead fragments rest }
    ensures spelled { (bytes message rest : List ℕ) → IsRecordSpelled bytes message rest }
    ensures marked { (message rest : List ℕ) → IsMarkedRead message rest }
    ensures long { (bytes : List ℕ) → IsLongJustWhere bytes }
    ensures many { (bytes : List ℕ) → IsTooManyJustWhere bytes }
    ensures stands { (bytes more : List ℕ) → StandsBefore bytes more }
    ensures one { (stream : List ℕ) → HasOneReading stream }
{}
