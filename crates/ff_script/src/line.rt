//! The lines of the script of one data server.

ghost use Rattle.std.specs.Prelude.{◌≡◌, option_map};
ghost use Rattle.ff_script.specs.Line.{event_value, deliver_at, restart_at, event_at};

use crate::digits::Digits;
use crate::pieces::PieceList;
use rpc_record::MAX_RECORD;

/// What happens next in the world of one data server.
#[derive(Debug, Drop)]
pub enum BareEvent<'a> {
    /// A record arrives.
    Deliver(Digits<'a>),
    /// The data server starts again, with these pieces of its pending writes on its disk.
    Restart(PieceList<'a>),
}

/// A delivery's line: `deliver`, one space and a record of at most `MAX_RECORD` bytes.
fn parse_deliver(line: &[u8]) -> Option<BareEvent<'_>>
    ensures { option_map event_value result ≡ deliver_at line.now }
{
    let text = line.strip_prefix(b"deliver ")?;
    let digits = Digits::read(text)?;
    (digits.len() <= MAX_RECORD).then_some(BareEvent::Deliver(digits))
}

/// A restart's line: `restart d1`, alone or with one space and pieces.
fn parse_restart(line: &[u8]) -> Option<BareEvent<'_>>
    ensures { option_map event_value result ≡ restart_at line.now }
{
    if line == b"restart d1".as_slice() {
        return Some(BareEvent::Restart(PieceList::none()));
    }
    let text = line.strip_prefix(b"restart d1 ")?;
    Some(BareEvent::Restart(PieceList::read(text)?))
}

/// An event's line behind `bare`: a delivery's or a restart's. `None` is a line that no script has there. Takes no memory.
pub fn parse_bare_event(line: &[u8]) -> Option<BareEvent<'_>>
    ensures { option_map event_value result ≡ event_at line.now }
{
    match parse_deliver(line) {
        Some(event) => Some(event),
        None => parse_restart(line),
    }
}
