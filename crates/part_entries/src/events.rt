//! Entries of packets, machines and time.

use crate::lists::read_pieces;
use cluster_model::{Entry, NodeId};
use ff_xdr::Data;
use row_words::Words;

/// The number of a client.
pub fn read_client(words: &mut Words<'_>) -> u32 {
    match words.node() {
        NodeId::Client(number) => number,
        NodeId::Mds | NodeId::Server(_) => words.outside(0),
    }
}

/// The number of a data server.
fn read_server(words: &mut Words<'_>) -> u32 {
    match words.node() {
        NodeId::Server(number) => number,
        NodeId::Mds | NodeId::Client(_) => words.outside(0),
    }
}

/// Bytes of their own.
pub fn read_data(words: &mut Words<'_>) -> Data {
    Data::from_vec(words.bytes())
}

pub fn read_packet(words: &mut Words<'_>) -> Entry {
    Entry::Packet {
        number: words.number64(),
        from: words.node(),
        to: words.node(),
        bytes: read_data(words),
    }
}

pub fn read_delivered(words: &mut Words<'_>) -> Entry {
    Entry::Delivered {
        number: words.number64(),
    }
}

pub fn read_timed_out(words: &mut Words<'_>) -> Entry {
    Entry::TimedOut {
        node: words.node(),
        xid: words.number32(),
    }
}

pub fn read_hold(words: &mut Words<'_>) -> Entry {
    Entry::Hold {
        from: words.node(),
        to: words.node(),
    }
}

pub fn read_pass(words: &mut Words<'_>) -> Entry {
    Entry::Pass {
        from: words.node(),
        to: words.node(),
    }
}

pub fn read_tick(words: &mut Words<'_>) -> Entry {
    Entry::Tick {
        seconds: words.number32(),
    }
}

pub fn read_turned(words: &mut Words<'_>) -> Entry {
    Entry::Turned {
        client: read_client(words),
    }
}

pub fn read_rebooted(words: &mut Words<'_>) -> Entry {
    Entry::Rebooted {
        client: read_client(words),
    }
}

pub fn read_restarted(words: &mut Words<'_>) -> Entry {
    Entry::Restarted {
        server: read_server(words),
        pieces: read_pieces(words),
    }
}
