//! Addresses of devices as words.

use device_addr::NetAddr;
use row_words::{Answer, Words};

/// The number of a byte.
fn byte(words: &mut Words<'_>, number: u32) -> u8 {
    match u8::try_from(number) {
        Ok(byte) => byte,
        Err(_) => words.outside(0),
    }
}

/// The number of a byte before a mark.
fn byte_before(words: &mut Words<'_>, mark: &str) -> u8 {
    let number = words.number32_before(mark);
    byte(words, number)
}

/// `127.0.0.1`: a host.
fn host(words: &mut Words<'_>) -> [u8; 4] {
    let first = byte_before(words, ".");
    let second = byte_before(words, ".");
    let third = byte_before(words, ".");
    let number = words.number32();
    [first, second, third, byte(words, number)]
}

/// A host and a port.
pub fn address(words: &mut Words<'_>) -> NetAddr {
    let host = host(words);
    let port = match u16::try_from(words.number32()) {
        Ok(port) => port,
        Err(_) => words.outside(0),
    };
    NetAddr { host, port }
}

/// A host and a port, with this between them.
fn put_parts(address: &NetAddr, between: &str, answer: &mut Answer) {
    let [first, second, third, fourth] = address.host;
    answer.number(u64::from(first));
    answer.push(".");
    answer.push_number(u64::from(second));
    answer.push(".");
    answer.push_number(u64::from(third));
    answer.push(".");
    answer.push_number(u64::from(fourth));
    answer.push(between);
    answer.push_number(u64::from(address.port));
}

/// A host and a port.
pub fn put_address(address: &NetAddr, answer: &mut Answer) {
    put_parts(address, " ", answer);
}

/// `127.0.0.1:2049`; `-` where there is none.
pub fn put_place(address: &Option<NetAddr>, answer: &mut Answer) {
    match address {
        Some(address) => put_parts(address, ":", answer),
        None => answer.word("-"),
    }
}
