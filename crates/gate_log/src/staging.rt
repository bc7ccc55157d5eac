//! Records that are written behind a log's last gate byte, and become part of it together.

ghost use Rattle.std.specs.Prelude.{◌≡◌, ◌≢◌, ◌+◌, ◌-◌, ◌<◌, ◌≤◌, ◌^◌, ℕ, List, IfOk, length};
ghost use Rattle.rpc_record.specs.Stream.{counted};
ghost use Rattle.gate_log.specs.Staging.{ClearsDisk, ClosesFirst, FindsEnd, IsEndWithin, LooksAtFirst, SealsLog, Stages, StagesMore};

use crate::gated::{Gated, HEAD};
use crate::reading::{Head, read_head};
use rpc_record::Failed;
use store_disk::Disk;

/// Where a log ends.
#[derive(Clone, Copy, Debug, PartialEq, Eq)]
pub enum LogEnd {
    /// The log is whole, and its last gate byte stands there.
    Whole(u64),
    /// It is cut: no whole record, or no gate byte, stands there.
    Cut(u64),
}

/// How many bytes of a record are not written: of the first that waits its gate, in whose place the log's closed gate
/// stands.
fn left_out(end: u64, at: u64) -> usize
    ensures first { at ≡ end → result ≡ 1 }
    ensures later { at ≢ end → result ≡ 0 }
    ensures range { result ≤ 1 }
{
    if at == end { 1 } else { 0 }
}

/// Writes a record behind those that wait, in one write: the first from behind its gate, in whose place the log's closed
/// gate stands; any other one with its own gate open, over the closed gate there. A closed gate stands behind it then.
/// `end` is where the log's last gate byte stands, `at` where the closed gate behind the waiting records does; where none
/// waits, these are the same. Returns where the closed gate stands then. It takes no memory.
///
/// Behind an error the disk is to be read anew before anything is appended.
pub fn stage<D: Disk>(disk: &mut D, end: u64, at: u64, body: &Gated) -> Result<u64, Failed>
    requires order { end ≤ at }
    requires bounded { at < 2 ^ 64 - 1 }
    ensures stages { (bodies staged : List (List ℕ)) → Stages (D.told disk.old) bodies staged end at → StagesMore (D.told disk.old) bodies staged body.now end result (D.told disk.new) }
    ensures end { IfOk result (λ next. (next ≡ at + 5 + length body.now) × (next < 2 ^ 64 - 1)) }
    ensures faults { D.faults disk.new ≡ counted result (D.faults disk.old) }
{
    let bytes = body.bytes();
    let from = left_out(end, at);
    disk.write_at(at + from as u64, &bytes[from..])?;
    Ok(at + (bytes.len() - 1) as u64)
}

/// Makes the records that wait part of the log, in three calls: all is synced, the gate before them is opened, synced.
/// `end` is where that gate stands, `at` where the closed gate behind them does. So a crash leaves all of them, or none.
///
/// Behind an error they may be part of it or not, and the disk is to be read anew before anything is appended.
pub fn seal<D: Disk>(disk: &mut D, end: u64, at: u64) -> Result<(), Failed>
    requires { end < at }
    ensures seals { (bodies staged : List (List ℕ)) → Stages (D.told disk.old) bodies staged end at → SealsLog (D.told disk.old) bodies staged at result (D.told disk.new) }
    ensures faults { D.faults disk.new ≡ counted result (D.faults disk.old) }
{
    disk.sync()?;
    disk.write_at(end, &[1])?;
    disk.sync()
}

/// Whether the first gate is to be closed before a disk is cut to it: the disk has at most one byte, or that gate is open.
fn is_to_close<D: Disk>(disk: &mut D) -> Result<bool, Failed>
    ensures looks { LooksAtFirst (D.told disk.old) result }
    ensures same { D.told disk.new ≡ D.told disk.old }
    ensures faults { D.faults disk.new ≡ counted result (D.faults disk.old) }
{
    let size = disk.length()?;
    if size <= 1 {
        return Ok(true);
    }
    if let Head::Closed = read_head(disk, 0, size)? {
        return Ok(false);
    }
    Ok(true)
}

/// Closes the first gate and syncs it, where it is to be closed.
fn close_first<D: Disk>(disk: &mut D) -> Result<(), Failed>
    ensures closes { ClosesFirst (D.told disk.old) result (D.told disk.new) }
    ensures faults { D.faults disk.new ≡ counted result (D.faults disk.old) }
{
    if !is_to_close(disk)? {
        return Ok(());
    }
    disk.write_at(0, &[0])?;
    disk.sync()
}

/// Clears a disk that is to take a new log, where all is synced: where it has at most one byte, or its first gate is open,
/// that gate is closed and synced; any other first byte is left. Then the disk is cut to that one byte, and synced. So a
/// crash leaves the log as it was, or an empty one.
pub fn clear<D: Disk>(disk: &mut D) -> Result<(), Failed>
    ensures clears { ClearsDisk (D.told disk.old) result (D.told disk.new) }
    ensures faults { D.faults disk.new ≡ counted result (D.faults disk.old) }
{
    close_first(disk)?;
    disk.cut(1)?;
    disk.sync()
}

/// Where the log of a disk with so many bytes ends. Only what stands before each body is read. One of at most one byte
/// is new, and its log ends at 0.
pub fn find_end<D: Disk>(disk: &mut D, size: u64) -> Result<LogEnd, Failed>
    ensures finds { FindsEnd (D.told disk.old) size result }
    ensures within { IsEndWithin size result }
    ensures same { D.told disk.new ≡ D.told disk.old }
    ensures faults { D.faults disk.new ≡ counted result (D.faults disk.old) }
{
    if size <= 1 {
        return Ok(LogEnd::Whole(0));
    }
    let mut at = 0;
    loop {
        match read_head(disk, at, size - at)? {
            Head::Absent | Head::Broken => return Ok(LogEnd::Cut(at)),
            Head::Closed => return Ok(LogEnd::Whole(at)),
            Head::Opens { length } => at += HEAD as u64 + u64::from(length),
        }
    }
}
