//! A file as a disk.

ghost use Rattle.std.specs.Prelude.{◌≡◌, ◌+◌, ◌^◌, ◌<◌, ◌≤◌, None, Ok, IfOk, OnOk, length};
ghost use Rattle.rpc_record.specs.Stream.{counted};

use rpc_record::Failed;
use std::fs::{File, Files, OpenOptions};
use std::io::{self, ErrorKind};
use std::os::unix::fs::FileExt;
use store_disk::Disk;

/// The last place of a file that the system knows.
const LAST_PLACE: u64 = (1 << 63) - 1;

/// A file in the working folder as a disk. It is opened at the first call, and made where it is not there; it is this
/// process's alone then. An error of the system is a fault. It tells nothing of its bytes.
#[derive(Drop)]
pub struct FileDisk<'r, R: Files<File = File>> {
    rt: &'r R,
    path: &'static str,
    file: Option<File>,
    faults: u64,
}

/// Takes the file for this process alone.
fn take_alone(file: &File) -> io::Result<()> {
    match file.try_lock() {
        Ok(()) => Ok(()),
        Err(_) => Err(ErrorKind::ResourceBusy.into()),
    }
}

/// Opens the file at a path, or makes it; its name is on the disk then, too.
fn open_file<R: Files<File = File>>(rt: &R, path: &str) -> io::Result<File> {
    let mut how = OpenOptions::new();
    how.read(true).write(true).create(true);
    let file = how.open(rt, path)?;
    take_alone(&file)?;
    File::open(rt, ".")?.sync_all()?;
    Ok(file)
}

/// No file is open.
fn not_open() -> io::Error {
    ErrorKind::NotFound.into()
}

/// Reads once from the byte `at` on, again where a signal interrupts it.
fn read_from(file: &File, at: u64, piece: &mut [u8]) -> io::Result<usize>
    ensures { IfOk result (λ n. n ≤ length piece.new) }
{
    if at > LAST_PLACE {
        return Ok(0);
    }
    for _ in 0..u64::MAX {
        match file.read_at(piece, at) {
            Err(error) if error.kind() == ErrorKind::Interrupted => {}
            Err(error) => return Err(error),
            Ok(count) => return Ok(count),
        }
    }
    Err(ErrorKind::Interrupted.into())
}

/// Writes all of the piece from the byte `at` on.
fn write_from(file: &File, at: u64, piece: &[u8]) -> io::Result<()>
    ensures { OnOk result (at + length piece.now < 2 ^ 64) }
{
    let Some(_end) = at.checked_add(piece.len() as u64) else {
        return Err(ErrorKind::InvalidInput.into());
    };
    file.write_all_at(piece, at)
}

/// The outcome, with an error counted as a fault.
fn count<T>(outcome: io::Result<T>, faults: &mut u64) -> Result<T, Failed>
    ensures same { IfOk result (λ x. outcome ≡ Ok x) }
    ensures counted { faults.new ≡ counted result faults.old }
{
    match outcome {
        Ok(value) => Ok(value),
        Err(_) => {
            *faults = faults.saturating_add(1);
            Err(Failed::Fault)
        }
    }
}

impl<'r, R: Files<File = File>> FileDisk<'r, R> {
    /// The file at a path; nothing is done yet.
    pub fn new(rt: &'r R, path: &'static str) -> FileDisk<'r, R>
        ensures { result.faults ≡ 0 }
    {
        FileDisk {
            rt,
            path,
            file: None,
            faults: 0,
        }
    }

    /// Opens the file, if it is not open.
    fn make_open(&mut self) -> io::Result<()>
        ensures { self.new.faults ≡ self.old.faults }
    {
        if self.file.is_none() {
            self.file = Some(open_file(self.rt, self.path)?);
        }
        Ok(())
    }

    /// How many bytes the file has.
    fn measure(&mut self) -> io::Result<u64>
        ensures { self.new.faults ≡ self.old.faults }
    {
        self.make_open()?;
        match &self.file {
            Some(file) => Ok(file.metadata()?.len()),
            None => Err(not_open()),
        }
    }

    fn read_piece(&mut self, at: u64, piece: &mut [u8]) -> io::Result<usize>
        ensures within { IfOk result (λ n. n ≤ length piece.new) }
        ensures faults { self.new.faults ≡ self.old.faults }
    {
        self.make_open()?;
        match &self.file {
            Some(file) => read_from(file, at, piece),
            None => Err(not_open()),
        }
    }

    fn write_piece(&mut self, at: u64, piece: &[u8]) -> io::Result<()>
        ensures within { OnOk result (at + length piece.now < 2 ^ 64) }
        ensures faults { self.new.faults ≡ self.old.faults }
    {
        self.make_open()?;
        match &self.file {
            Some(file) => write_from(file, at, piece),
            None => Err(not_open()),
        }
    }

    fn resize(&mut self, length: u64) -> io::Result<()>
        ensures { self.new.faults ≡ self.old.faults }
    {
        self.make_open()?;
        match &self.file {
            Some(file) => file.set_len(length),
            None => Err(not_open()),
        }
    }

    fn flush(&mut self) -> io::Result<()>
        ensures { self.new.faults ≡ self.old.faults }
    {
        self.make_open()?;
        match &self.file {
            Some(file) => file.sync_data(),
            None => Err(not_open()),
        }
    }
}

impl<'r, R: Files<File = File>> Disk for FileDisk<'r, R> {
    ghost faults = { λ disk. disk.faults };

    ghost told = { λ _. None };

    fn length(&mut self) -> Result<u64, Failed> {
        let outcome = self.measure();
        count(outcome, &mut self.faults)
    }

    fn read(&mut self, at: u64, piece: &mut [u8]) -> Result<usize, Failed> {
        let outcome = self.read_piece(at, piece);
        count(outcome, &mut self.faults)
    }

    fn write_at(&mut self, at: u64, piece: &[u8]) -> Result<(), Failed> {
        let outcome = self.write_piece(at, piece);
        count(outcome, &mut self.faults)
    }

    fn cut(&mut self, length: u64) -> Result<(), Failed> {
        let outcome = self.resize(length);
        count(outcome, &mut self.faults)
    }

    fn sync(&mut self) -> Result<(), Failed> {
        let outcome = self.flush();
        count(outcome, &mut self.faults)
    }
}
