//! The files of rows in a folder.

use crate::outcome::Outcome;
use crate::play::{io_fault, play_rows, play_talk};
use part_runs::{briefly, replayed, shown};
use row_words::RowFault;
use std::alloc::Global;
use std::{fs, io, str};

/// What a file has, by the last part of its name.
#[derive(Clone, Copy)]
enum Sort {
    Rows,
    Talk,
    /// A script, with its trace in a file beside it.
    Script,
    /// A cluster's script, with its brief trace in a file beside it.
    Cluster,
    /// Records, with what is said of them in a file beside it.
    Records,
}

/// The front of a file's name, and what it has; `None` where it is no file of rows.
fn sort_of(name: &str) -> Option<(&str, Sort)> {
    let (front, end) = name.rsplit_once(".")?;
    let sort = match end {
        "rows" => Sort::Rows,
        "talk" => Sort::Talk,
        "script" => Sort::Script,
        "cluster" => Sort::Cluster,
        "records" => Sort::Records,
        _ => return None,
    };
    Some((front, sort))
}

/// The kind that a file of rows is named for: what stands before the first `-` of its name.
fn kind_of(front: &str) -> &str {
    match front.split_once("-") {
        None => front,
        Some((kind, _)) => kind,
    }
}

/// Holds the lines that came of a file against those that are wanted, and how many there are.
fn compare_lines<'x>(came: &'x str, wanted: &'x str, outcome: &mut Outcome<'_>) {
    for (place, (line, want)) in came.lines().zip(wanted.lines()).enumerate() {
        outcome.compare(place.saturating_add(1), "a line", want, line);
    }
    if came.lines().count() != wanted.lines().count() {
        outcome.compare(0, "as many lines", "as are wanted", "others");
    }
}

/// How the lines that came of a file compare with those that are wanted.
fn compared<'a>(
    alloc: Global,
    file: &'a str,
    came: Result<Vec<u8>, RowFault>,
    wanted: &str,
) -> Result<Outcome<'a>, RowFault> {
    let mut outcome = Outcome::new(alloc, file);
    let came = came?;
    compare_lines(str::from_utf8(&came).unwrap_or("?"), wanted, &mut outcome);
    Ok(outcome)
}

/// Plays what stands in a file, with the text of the one beside it where it has one.
fn play_file<'a>(
    alloc: Global,
    file: &'a str,
    text: &'a str,
    beside: &str,
) -> Result<Outcome<'a>, RowFault> {
    let Some((front, sort)) = sort_of(file) else {
        return Err(RowFault::Outside);
    };
    match sort {
        Sort::Rows => Ok(play_rows(alloc, file, kind_of(front), text)),
        Sort::Talk => play_talk(alloc, file, text),
        Sort::Script => compared(alloc, file, replayed(alloc, text.as_bytes()), beside),
        Sort::Cluster => compared(alloc, file, briefly(alloc, text.as_bytes()), beside),
        Sort::Records => compared(alloc, file, shown(alloc, text.as_bytes()), beside),
    }
}

/// The names of the files in the folder, in order.
fn names(rt: &HostRuntime) -> io::Result<Vec<String>> {
    let mut names = Vec::new(rt.alloc());
    for entry in fs::read_dir(rt, ".")? {
        let entry = entry?;
        names.push(String::from_str(rt.alloc(), entry.file_name())?)?;
    }
    names.sort_unstable();
    Ok(names)
}

/// The text of the file beside a script or records.
fn beside(rt: &HostRuntime, name: &str) -> io::Result<String> {
    let (front, end) = match sort_of(name) {
        Some((front, Sort::Script)) => (front, "trace"),
        Some((front, Sort::Cluster)) => (front, "brief"),
        Some((front, Sort::Records)) => (front, "lines"),
        _ => return Ok(String::new(rt.alloc())),
    };
    let name = format!(in rt.alloc(); "{front}.{end}")?;
    fs::read_to_string(rt, name.as_str())
}

/// Plays a file of the folder, and prints how its rows came out; answers whether all came as they are wanted.
fn play_named(rt: &HostRuntime, name: &str) -> io::Result<bool> {
    let text = fs::read_to_string(rt, name)?;
    let beside = beside(rt, name)?;
    let outcome = play_file(rt.alloc(), name, text.as_str(), beside.as_str()).map_err(io_fault)?;
    let is_good = outcome.is_good();
    let report = outcome.report().map_err(io_fault)?;
    println!(rt; "{report}")?;
    Ok(is_good)
}

/// Plays every file of rows in the folder; answers whether all rows came as they are wanted.
pub fn play_folder(rt: &HostRuntime) -> io::Result<bool> {
    let mut are_good = true;
    for name in &names(rt)? {
        if sort_of(name.as_str()).is_some() {
            are_good = play_named(rt, name.as_str())? && are_good;
        }
    }
    Ok(are_good)
}
