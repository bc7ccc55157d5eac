//! What holds of the calls of every history of a link.

ghost use Rattle.waiting_calls.specs.LinkLaws.{AreInTime, AreKeptOnce, AreSilentIfDown, AreUpBehindRecords, EndRightly};

/// Over every list of moves, at moments that never fall: each call that went out and was neither answered nor
/// given up since stands once, under its node and its number, among those that wait, and is given up two seconds
/// behind its last sending; or, a READ, among those that are given up at once. No other stands there. What is
/// given up was due before all others, or is a READ of a data server that is silent: nothing came from it for
/// six seconds, while something came from another. A server that is down is silent, and one that gave a record
/// is up.
pub fn link_law()
    ensures kept { AreKeptOnce }
    ensures ended { EndRightly }
    ensures in_time { AreInTime }
    ensures down { AreSilentIfDown }
    ensures up { AreUpBehindRecords }
{}
