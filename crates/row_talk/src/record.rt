//! The bytes of records, by words and names.

use row_words::{Answer, RowFault, number32};
use std::alloc::Global;

/// A name and the words that it stands for.
#[derive(Clone, Copy)]
pub struct Name<'a> {
    pub name: &'a str,
    pub words: &'a str,
}

/// The words that a word stands for, which is itself where it is no name.
fn meaning<'a>(names: &[Name<'a>], word: &'a str) -> &'a str {
    for entry in names {
        if entry.name == word {
            return entry.words;
        }
    }
    word
}

/// Appends zero bytes up to a multiple of four, of a text of this length.
fn pad(length: usize, bytes: &mut Vec<u8>) -> Result<(), RowFault> {
    for _ in 0..(4 - length % 4) % 4 {
        bytes.push(0)?;
    }
    Ok(())
}

/// Appends a text with its length and its padding.
fn push_text(text: &str, bytes: &mut Vec<u8>) -> Result<(), RowFault> {
    let length = u32::try_from(text.len()).ok().ok_or(RowFault::Outside)?;
    bytes.extend_from_slice(&length.to_be_bytes())?;
    bytes.extend_from_slice(text.as_bytes())?;
    pad(text.len(), bytes)
}

/// Appends so many zero bytes.
fn push_zeros(digits: &str, bytes: &mut Vec<u8>) -> Result<(), RowFault> {
    for _ in 0..number32(digits)? {
        bytes.push(0)?;
    }
    Ok(())
}

/// Appends bytes in hexadecimal.
fn push_bytes(alloc: Global, digits: &str, bytes: &mut Vec<u8>) -> Result<(), RowFault> {
    match hex::decode(alloc, digits) {
        Ok(some) => {
            bytes.extend_from_slice(&some)?;
            Ok(())
        }
        Err(_) => Err(RowFault::Outside),
    }
}

/// Appends the bytes of a word that is no name.
fn push_word(alloc: Global, word: &str, bytes: &mut Vec<u8>) -> Result<(), RowFault> {
    if let Some(text) = word.strip_prefix("'") {
        return push_text(text, bytes);
    }
    if let Some(digits) = word.strip_prefix("*") {
        return push_zeros(digits, bytes);
    }
    if let Some(digits) = word.strip_prefix(":") {
        return push_bytes(alloc, digits, bytes);
    }
    if let Some((seconds, nanos)) = word.split_once(".") {
        bytes.extend_from_slice(&number32(seconds)?.to_be_bytes())?;
        bytes.extend_from_slice(&number32(nanos)?.to_be_bytes())?;
        return Ok(());
    }
    let number = match word.strip_prefix("#") {
        Some(digits) => number32(digits)?,
        None => u32::from_str_radix(word, 16).ok().ok_or(RowFault::Outside)?,
    };
    bytes.extend_from_slice(&number.to_be_bytes())?;
    Ok(())
}

/// Appends the bytes of words, none of which is a name.
fn push_words(alloc: Global, words: &str, bytes: &mut Vec<u8>) -> Result<(), RowFault> {
    for word in words.split_whitespace() {
        push_word(alloc, word, bytes)?;
    }
    Ok(())
}

/// Appends the bytes of words. What a name stands for may have names, and these may have some that have none.
fn push_named<'x>(
    alloc: Global,
    names: &'x [Name<'x>],
    word: &'x str,
    bytes: &mut Vec<u8>,
) -> Result<(), RowFault> {
    for part in meaning(names, word).split_whitespace() {
        for piece in meaning(names, part).split_whitespace() {
            push_words(alloc, meaning(names, piece), bytes)?;
        }
    }
    Ok(())
}

/// The bytes of a record's words, in hexadecimal.
fn digits<'x>(alloc: Global, names: &'x [Name<'x>], words: &'x str) -> Result<String, RowFault> {
    let mut bytes = Vec::new(alloc);
    for word in words.split_whitespace() {
        push_named(alloc, names, word, &mut bytes)?;
    }
    let mut answer = Answer::new(alloc);
    answer.bytes(&bytes);
    answer.into_text()
}

/// A node and a record's words, as `NODE HEX` behind this word.
pub fn record_words<'x>(
    alloc: Global,
    names: &'x [Name<'x>],
    front: &str,
    row: &'x str,
) -> Result<String, RowFault> {
    let (node, words) = row.split_once(" ").unwrap_or((row, ""));
    let digits = digits(alloc, names, words)?;
    let mut answer = Answer::new(alloc);
    answer.word(front);
    answer.word(node);
    answer.word(digits.as_str());
    answer.into_text()
}

/// A text in which each part in parentheses are a record's words, which are replaced by their bytes in hexadecimal.
fn unfolded<'x>(alloc: Global, names: &'x [Name<'x>], line: &'x str) -> Result<String, RowFault> {
    let mut text = String::new(alloc);
    for (place, part) in line.split("(").enumerate() {
        if place == 0 {
            text.push_str(part)?;
            continue;
        }
        let (words, back) = part.split_once(")").ok_or(RowFault::Outside)?;
        text.push_str(digits(alloc, names, words)?.as_str())?;
        text.push_str(back)?;
    }
    Ok(text)
}

/// Another word: the same digits so many times.
fn put_repeated(digits: &str, count: u32, answer: &mut Answer) {
    answer.word("");
    for _ in 0..count {
        answer.push(digits);
    }
}

/// Appends a word of a call or an entry: `'AB` stands for the bytes of a text, and `0a*3` for the same bytes three times.
fn put_word(word: &str, answer: &mut Answer) {
    if let Some(text) = word.strip_prefix("'") {
        return answer.bytes(text.as_bytes());
    }
    let Some((digits, count)) = word.split_once("*") else {
        return answer.word(word);
    };
    match number32(count) {
        Ok(count) => put_repeated(digits, count, answer),
        Err(fault) => answer.note(fault),
    }
}

/// The words of a call, of an answer or of an entry, as rows have them.
pub fn row_words<'x>(
    alloc: Global,
    names: &'x [Name<'x>],
    line: &'x str,
) -> Result<String, RowFault> {
    let line = unfolded(alloc, names, line)?;
    let mut answer = Answer::new(alloc);
    for word in line.as_str().split(' ') {
        put_word(word, &mut answer);
    }
    answer.into_text()
}
