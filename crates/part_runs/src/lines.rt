//! Rows of lines of scripts.

use crate::text::read_text;
use cluster_model::Piece;
use ff_replay::{Event, Line, Setup, parse_line};
use ff_script::{BareEvent, Digits, PieceList};
use row_words::{Answer, Part, Words};

/// Plays rows of lines of scripts.
#[derive(Drop)]
pub struct LineRows;

/// The bytes of a record are shown where there are no more than these.
const SHORT: usize = 1_000;

/// The setup before a line, by its own line; `-` is none.
fn read_setup(words: &mut Words<'_>) -> Option<Setup> {
    let text = read_text(words);
    match parse_line(None, &text) {
        Some(Line::Setup(setup)) => Some(setup),
        Some(Line::Nothing) => None,
        Some(Line::Event(_)) => words.outside(None),
        None => words.outside(None),
    }
}

/// The bytes of a record; of more than 1,000 `long` and how many there are.
fn put_digits(digits: &Digits<'_>, answer: &mut Answer) {
    if digits.len() > SHORT {
        answer.word("long");
        return answer.number(digits.len() as u64);
    }
    match digits.decode(answer.alloc()) {
        Ok(bytes) => answer.bytes(&bytes),
        Err(_) => answer.want_memory(),
    }
}

/// Appends a piece as `fileid:index:from:count`.
fn push_piece(piece: &Piece, answer: &mut Answer) {
    answer.push_number(piece.fileid);
    answer.push(":");
    answer.push_number(u64::from(piece.index));
    answer.push(":");
    answer.push_number(u64::from(piece.from));
    answer.push(":");
    answer.push_number(u64::from(piece.count));
}

/// Pieces with commas between them; `-` is none.
fn put_list(pieces: &[Piece], answer: &mut Answer) {
    answer.word(if pieces.is_empty() { "-" } else { "" });
    for (place, piece) in pieces.iter().enumerate() {
        if place > 0 {
            answer.push(",");
        }
        push_piece(piece, answer);
    }
}

/// Pieces that a text spells.
fn put_pieces(pieces: &PieceList<'_>, answer: &mut Answer) {
    match pieces.decode(answer.alloc()) {
        Ok(pieces) => put_list(&pieces, answer),
        Err(_) => answer.want_memory(),
    }
}

/// What is chosen.
fn put_setup(setup: Setup, answer: &mut Answer) {
    match setup {
        Setup::Bare => answer.word("Some Setup Bare"),
        Setup::Cluster(sizes) => {
            answer.word("Some Setup Cluster");
            answer.number(u64::from(sizes.servers));
            answer.number(u64::from(sizes.mirrors));
            answer.number(u64::from(sizes.clients));
        }
    }
}

/// What happens; of a cluster only that it is an event.
fn put_event(event: &Event<'_>, answer: &mut Answer) {
    match event {
        Event::Bare(BareEvent::Deliver(digits)) => {
            answer.word("Some Event Deliver");
            put_digits(digits, answer);
        }
        Event::Bare(BareEvent::Restart(pieces)) => {
            answer.word("Some Event Restart");
            put_pieces(pieces, answer);
        }
        Event::Cluster(_) => answer.word("Some Event Cluster"),
    }
}

/// What a line says.
fn put_line(line: &Line<'_>, answer: &mut Answer) {
    match line {
        Line::Nothing => answer.word("Some Nothing"),
        Line::Setup(setup) => put_setup(*setup, answer),
        Line::Event(event) => put_event(event, answer),
    }
}

/// `parse_line SETUP TEXT`: what the line says behind that setup.
fn play_line(words: &mut Words<'_>, answer: &mut Answer) {
    let setup = read_setup(words);
    let text = read_text(words);
    if !words.end() {
        return;
    }
    match parse_line(setup, &text) {
        Some(line) => put_line(&line, answer),
        None => answer.word("None"),
    }
}

/// `pieces TEXT`: the pieces that the text spells.
fn play_pieces(words: &mut Words<'_>, answer: &mut Answer) {
    let text = read_text(words);
    if !words.end() {
        return;
    }
    match PieceList::read(&text) {
        None => answer.word("None"),
        Some(pieces) => {
            answer.word("Some");
            put_pieces(&pieces, answer);
        }
    }
}

impl Part for LineRows {
    fn call(&mut self, words: &mut Words<'_>, answer: &mut Answer) {
        match words.word() {
            "parse_line" => play_line(words, answer),
            "pieces" => play_pieces(words, answer),
            _ => answer.refuse(),
        }
    }
}
