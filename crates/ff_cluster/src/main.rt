//! A pNFS cluster with flexible-file layouts: replayed from a script, or as processes over TCP.
#![tactic(auto)]

use ff_run::{end_without_words, run};
use file_disk::FileDisk;
use node_link::{NodeLink, SystemClock};
use record_tcp::TcpHost;
use rpc_record::{StdSink, StdSource};
use std::process::ExitCode;
use std::{env, io};

/// The file of a data server's log, in the working folder.
const LOG_FILE: &str = "ff_store.log";

/// The other file of the log, to which it is renewed.
const SPARE_FILE: &str = "ff_store.alt";

/// The words behind the program's name.
fn words(rt: &HostRuntime) -> io::Result<Vec<String>> {
    let mut words = Vec::new(rt.alloc());
    for word in env::args(rt)?.skip(1) {
        words.push(word)?;
    }
    Ok(words)
}

/// Runs the program on the standard input and output, with its notes on the standard error, its disks
/// in the working folder, its link over TCP and the system's clock. Words that are not UTF-8 are no command, and where
/// memory is wanted for the words the program says so and ends with 8.
fn main(rt: HostRuntime) -> ExitCode {
    let mut source = StdSource::new(rt.stdin());
    let mut sink = StdSink::new(rt.stdout());
    let mut notes = StdSink::new(rt.stderr());
    let mut disk = FileDisk::new(&rt, LOG_FILE);
    let mut spare = FileDisk::new(&rt, SPARE_FILE);
    let mut link = NodeLink::new(rt.alloc(), TcpHost::new(&rt, rt.alloc()));
    let mut clock = SystemClock::new(&rt);
    let words = match words(&rt) {
        Ok(words) => words,
        Err(e) if e.kind() == io::ErrorKind::OutOfMemory => {
            return ExitCode::from(end_without_words(rt.alloc(), &mut notes));
        }
        Err(_) => Vec::new(rt.alloc()),
    };
    ExitCode::from(run(
        rt.alloc(),
        &words,
        &mut source,
        &mut sink,
        &mut notes,
        &mut disk,
        &mut spare,
        &mut link,
        &mut clock,
    ))
}
