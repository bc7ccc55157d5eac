//! Plays the parts of the cluster by rows, one call a line. With the name of a kind it plays the standard input and prints
//! an answer a line; without a word it plays every file of rows in its folder, and says of each how many rows differ, and
//! which.
#![tactic(auto)]

mod files;
mod kinds;
mod outcome;
mod play;

use crate::files::play_folder;
use crate::play::play_input;
use std::process::ExitCode;
use std::{env, io};

/// The word behind the program's name, which is empty where there is none.
fn kind(rt: &HostRuntime) -> io::Result<String> {
    match env::args(rt)?.nth(1) {
        None => Ok(String::new(rt.alloc())),
        Some(word) => Ok(word),
    }
}

/// Plays what the word asks for; answers whether all rows came as they are wanted.
fn played(rt: &HostRuntime) -> io::Result<bool> {
    let kind = kind(rt)?;
    if kind.is_empty() {
        return play_folder(rt);
    }
    play_input(rt, kind.as_str())
}

/// Status 0: all was played, and every row came as it is wanted. 1: some rows differ, or there is no such kind. 2: the
/// input or the output failed, or memory was wanted.
fn main(rt: HostRuntime) -> ExitCode {
    match played(&rt) {
        Ok(true) => ExitCode::from(0),
        Ok(false) => ExitCode::from(1),
        Err(_) => ExitCode::from(2),
    }
}
