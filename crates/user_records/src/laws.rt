//! What a record that names no SETATTR and no CREATE does.

ghost use Rattle.std.specs.Prelude.{ℕ, List};
ghost use Rattle.cluster_model.specs.Server.{ServerState};
ghost use Rattle.user_records.specs.UserRecords.{UsersDoNoMore, ReadersDoNothing};

/// A record that names another procedure than SETATTR 2 and CREATE 8 does to a data server what a user's WRITE or COMMIT
/// does, or nothing (RFC 5531, section 9; RFC 1813, section 3.3). One that names no WRITE 7 and
/// no COMMIT 21 either does nothing. It holds of every list of numbers: of records that are no
/// calls, and of numbers that are no bytes.
pub fn user_records()
    ensures users { (s : ServerState) (bytes : List ℕ) → UsersDoNoMore s bytes }
    ensures readers { (s : ServerState) (bytes : List ℕ) → ReadersDoNothing s bytes }
{}
