//! Users and groups of a layout.

ghost use Rattle.ff_layout.specs.User.{IsUserNumber};

use itoa::Buffer;

/// The number that a user or a group of a layout is by its text: one or more decimal digits without a
/// leading zero, of a number up to 2^32 - 1. `None` for any other text. Takes no memory.
///
/// The text of a user that AUTH_SYS can name is the number in decimal (RFC 8435, section 2.2; RFC 8881,
/// section 5.9). `0` is the number 0.
pub fn user_number(text: &str) -> Option<u32>
    ensures { IsUserNumber text.now result }
{
    let number = text.parse::<u32>().ok()?;
    let mut buffer = Buffer::new();
    (buffer.format(number) == text).then_some(number)
}
