//! What comes over a link, and what was sent over it.

use cluster_model::NodeId;
use ff_xdr::Data;
use node_link::Arrival;
use row_words::{Answer, RowFault, Words};

/// A machine, `:` and the number of the call to it that got no answer.
fn timeout(words: &mut Words<'_>) -> Arrival {
    let node = words.before(":");
    Arrival::TimedOut {
        node: words.node_of(node),
        xid: words.number32(),
    }
}

/// A machine, `:` and the bytes of its record, or `timeout:` and a call.
fn told(words: &mut Words<'_>) -> Arrival {
    let first = words.before(":");
    if first == "timeout" {
        return timeout(words);
    }
    Arrival::Record {
        from: words.node_of(first),
        bytes: Data::from_vec(words.bytes()),
    }
}

/// `closed`, `quiet`, or what a machine told.
fn arrival(text: &str, words: &mut Words<'_>) -> Arrival {
    match text {
        "closed" => Arrival::Closed,
        "quiet" => Arrival::Quiet,
        _ => {
            let mut item = Words::of(words.alloc(), text);
            let arrival = told(&mut item);
            words.behind(item);
            arrival
        }
    }
}

/// Arrivals, with commas between them; `-` is none.
pub fn read_arrivals(words: &mut Words<'_>) -> Vec<Arrival> {
    let mut arrivals = Vec::new(words.alloc());
    if words.is_none() {
        return arrivals;
    }
    for text in words.word().split(',') {
        if arrivals.push(arrival(text, words)).is_err() {
            words.note(RowFault::NoMemory);
        }
    }
    arrivals
}

/// Each record that was sent as `send`, the machine that it went to and its bytes, with ` / ` between them; `-` is none.
pub fn put_sent(sent: &[(NodeId, Data)], answer: &mut Answer) {
    if sent.is_empty() {
        return answer.word("-");
    }
    for (place, (to, bytes)) in sent.iter().enumerate() {
        answer.word(if place == 0 { "send" } else { "/ send" });
        answer.node(*to);
        answer.bytes(bytes.bytes());
    }
}
