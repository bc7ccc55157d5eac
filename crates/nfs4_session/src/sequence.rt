//! Numbers of requests.

ghost use Rattle.std.specs.Prelude.{◌≡◌};
ghost use Rattle.nfs4_session.specs.Slots.{sequence_after};

/// The number behind a number of a request, of a callback or of a CREATE_SESSION: one more, and 0 behind
/// 4,294,967,295 (RFC 8881, section 2.10.6.1).
pub fn next_sequence(last: u32) -> u32
    ensures { result ≡ sequence_after last }
{
    last.wrapping_add(1)
}
