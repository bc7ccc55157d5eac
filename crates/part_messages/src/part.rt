//! The part.

use crate::asked::{Ask, longer_bytes, row_bytes};
use crate::compounds::{put_cb_compound_row, put_compound_row};
use crate::fits::{put_list, put_result_fits};
use crate::forms::put_form;
use crate::identifiers::{
    put_file_handle, put_file_number, put_layout_stateid, put_on_number, put_open_stateid,
    put_universal, put_user,
};
use crate::items::{put_data, put_items, put_raw};
use crate::procedures::{put_call3, put_reply3};
use crate::results::{put_cb_results_row, put_results_row};
use crate::rpc::{put_call, put_reply};
use row_words::{Answer, Part, Words};

/// Bytes that are read as messages, and what belongs to them.
#[derive(Drop)]
pub struct MessageRows;

/// What the bytes of a whole record or compound are, or of a message that stands by itself.
fn put_whole(form: &str, longer: &[u8], answer: &mut Answer) {
    let bytes = row_bytes(longer);
    match form {
        "call" => put_call(bytes, answer),
        "reply" => put_reply(bytes, answer),
        "compound" => put_compound_row(bytes, answer),
        "cb_compound" => put_cb_compound_row(bytes, answer),
        "results" => put_results_row(bytes, answer),
        "cb_results" => put_cb_results_row(bytes, answer),
        _ => put_form(form, Ask::Value, longer, answer),
    }
}

/// What is asked of bytes, which are the last word.
fn put_asked(ask: Ask, form: &str, words: &mut Words<'_>, answer: &mut Answer) {
    let longer = longer_bytes(words);
    if !words.end() {
        return;
    }
    match ask {
        Ask::Value => put_whole(form, &longer, answer),
        Ask::Cut => put_form(form, ask, &longer, answer),
    }
}

/// What is asked of a message, with the number of a procedure before its bytes where it has one.
fn put_message(ask: Ask, form: &str, words: &mut Words<'_>, answer: &mut Answer) {
    match form {
        "call3" => put_call3(ask, words, answer),
        "reply3" => put_reply3(ask, words, answer),
        _ => put_asked(ask, form, words, answer),
    }
}

/// What a row asks of numbers, of a text which is all that is left of the line, or of the bytes of a message.
fn put_named(name: &str, words: &mut Words<'_>, answer: &mut Answer) {
    match name {
        "is_built" | "device_of" | "status" => put_on_number(name, words, answer),
        "layout_stateid" => put_layout_stateid(words, answer),
        "open_stateid" => put_open_stateid(words, answer),
        "file_handle" => put_file_handle(words, answer),
        "file_number" => put_file_number(words, answer),
        "user" => put_user(words.rest(), answer),
        "universal" => put_universal(words.rest(), answer),
        _ => put_message(Ask::Value, name, words, answer),
    }
}

impl Part for MessageRows {
    fn call(&mut self, words: &mut Words<'_>, answer: &mut Answer) {
        match words.word() {
            "cut" => put_message(Ask::Cut, words.word(), words, answer),
            "items" => put_items(words, answer),
            "raw" => put_raw(words, answer),
            "data" => put_data(words, answer),
            "list" => put_list(words, answer),
            "result_fits" => put_result_fits(words, answer),
            name => put_named(name, words, answer),
        }
    }
}
