//! Universal addresses over TCP and IPv4 (RFC 5665, section 5.2.3.3).

ghost use Rattle.std.specs.Prelude.{◌≡◌, ◌<◌, ◌++◌, ℕ, List, MatchOption, codes, decimal};
ghost use Rattle.std.specs.List.{flat_map};
ghost use Rattle.ff_xdr.specs.Calls.{Grows, Puts};
ghost use Rattle.device_addr.specs.Universal.{AddressValue, IsAddress, IsNumberBefore, address_text, address_value};

use ff_xdr::{NoMemory, Out};
use itoa::Buffer;

/// A host's address of IPv4 and a port of TCP.
#[derive(Clone, Copy, Debug, PartialEq, Eq)]
pub struct NetAddr {
    /// The four bytes of the host's address, the highest first.
    pub host: [u8; 4],
    /// The port, 0 to 65,535.
    pub port: u16,
}

/// The number of one byte of which the text is the decimal, if there is one.
fn byte_at(text: &str) -> Option<u8>
    ensures { MatchOption result ((n : ℕ) → n < 256 → text.now ≡ decimal n → ⊥) (λ n. text.now ≡ decimal n) }
{
    let number = text.parse::<u8>().ok()?;
    let mut buffer = Buffer::new();
    (buffer.format(number) == text).then_some(number)
}

/// The number of one byte before the first dot, and the text behind the dot.
fn first_byte(text: &str) -> Option<(u8, &str)>
    ensures { MatchOption result ((n : ℕ) (rest : List ℕ) → n < 256 → IsNumberBefore text.now n rest → ⊥) (λ p. (p.0 < 256) × IsNumberBefore text.now p.0 p.1.now) }
{
    let (first, rest) = text.split_once('.')?;
    Some((byte_at(first)?, rest))
}

/// The address that a text is: `h1.h2.h3.h4.p1.p2`, six numbers of a byte in decimal without leading
/// zeros, of which the last two are the port's bytes, the higher first. `None` for any other text.
/// Takes no memory.
pub fn parse_universal(text: &str) -> Option<NetAddr>
    ensures text { MatchOption result ((a : AddressValue) → IsAddress a → text.now ≡ address_text a → ⊥) (λ a. text.now ≡ address_text (address_value a)) }
    ensures address { MatchOption result (Unit {0}) (λ a. IsAddress (address_value a)) }
{
    let (first, rest) = first_byte(text)?;
    let (second, rest) = first_byte(rest)?;
    let (third, rest) = first_byte(rest)?;
    let (fourth, rest) = first_byte(rest)?;
    let (high, rest) = first_byte(rest)?;
    let low = byte_at(rest)?;
    Some(NetAddr {
        host: [first, second, third, fourth],
        port: u16::from_be_bytes([high, low]),
    })
}

/// Appends a number.
fn put_number(number: u8, out: &mut Out) -> Result<(), NoMemory>
    ensures { Puts out.old result out.new (decimal number) }
{
    let mut buffer = Buffer::new();
    out.raw(buffer.format(number).as_bytes())
}

/// Appends numbers, each behind a dot. At an error a part of it may stand.
fn put_more(numbers: &[u8], out: &mut Out) -> Result<(), NoMemory>
    ensures { Grows out.old result out.new (flat_map (λ n. codes "." ++ decimal n) numbers.now) }
{
    for number in numbers {
        out.raw(b".")?;
        put_number(*number, out)?;
    }
    Ok(())
}

/// Appends the six numbers of an address. At an error a part of it may stand.
fn put_numbers(address: &NetAddr, out: &mut Out) -> Result<(), NoMemory>
    ensures { Grows out.old result out.new (address_text (address_value address.now)) }
{
    let [first, second, third, fourth] = address.host;
    let [high, low] = address.port.to_be_bytes();
    put_number(first, out)?;
    put_more(&[second, third, fourth, high, low], out)
}

/// Appends the text of an address, as `parse_universal` takes it (RFC 5665, section 5.2.3.3). Takes the
/// memory of `out` alone; `NoMemory` where there is none, and then nothing was appended.
pub fn print_universal(address: &NetAddr, out: &mut Out) -> Result<(), NoMemory>
    ensures { Puts out.old result out.new (address_text (address_value address.now)) }
{
    let mark = out.len();
    let put = put_numbers(address, out);
    if put.is_err() {
        out.truncate(mark);
    }
    put
}
