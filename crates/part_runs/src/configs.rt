//! Rows of configurations.

use crate::text::read_text;
use device_addr::{NetAddr, print_universal};
use ff_node::{Config, ConfigFault, read_config};
use ff_xdr::Out;
use row_words::{Answer, Part, Words};
use std::str;

/// Plays rows of configurations.
#[derive(Drop)]
pub struct ConfigRows;

/// Appends an address to the last word.
fn push_address(address: &NetAddr, answer: &mut Answer) {
    let mut out = Out::new(answer.alloc());
    if print_universal(address, &mut out).is_err() {
        answer.want_memory();
    }
    match str::from_utf8(out.bytes()) {
        Ok(text) => answer.push(text),
        Err(_) => answer.refuse(),
    }
}

/// Addresses with commas between them.
fn put_addresses(addresses: &[NetAddr], answer: &mut Answer) {
    answer.word("");
    for (place, address) in addresses.iter().enumerate() {
        if place > 0 {
            answer.push(",");
        }
        push_address(address, answer);
    }
}

/// The servers, the metadata server, and the mirrors, the node's own number and its turns.
fn put_config(config: &Config, answer: &mut Answer) {
    put_addresses(&config.servers, answer);
    answer.word("");
    push_address(&config.mds, answer);
    answer.number32(config.mirrors);
    answer.number32(config.own);
    answer.number32(config.turns);
}

/// What a line configures, or that it is bad.
fn put_read(read: Result<Config, ConfigFault>, answer: &mut Answer) {
    match read {
        Ok(config) => {
            answer.word("Ok");
            put_config(&config, answer);
        }
        Err(ConfigFault::Bad) => answer.word("Bad"),
        Err(ConfigFault::NoMemory) => answer.want_memory(),
    }
}

/// `read_config TEXT`.
fn play_config(words: &mut Words<'_>, answer: &mut Answer) {
    let line = read_text(words);
    if words.end() {
        put_read(read_config(answer.alloc(), &line), answer);
    }
}

impl Part for ConfigRows {
    fn call(&mut self, words: &mut Words<'_>, answer: &mut Answer) {
        match words.word() {
            "read_config" => play_config(words, answer),
            _ => answer.refuse(),
        }
    }
}
