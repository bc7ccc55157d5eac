//! A log in two files that is open, on disks that are handed to each call.

ghost use Rattle.std.specs.Prelude.{◌≡◌, ◌≢◌, ◌+◌, ◌-◌, ◌^◌, ◌<◌, ◌≤◌, [], ◌++◌, List, ℕ, IfOk, OnOk, OnErr, is_some, None, Some, length, true, Ok, nat_le};
ghost use Rattle.rpc_record.specs.Stream.{counted};
ghost use Rattle.gate_log.specs.Appends.{FindsGate, LiesWithin};
ghost use Rattle.twin_log.specs.Twins.{at_side};
ghost use Rattle.twin_log.specs.KeptLogs.{can_append, can_begin, new_pair};
ghost use Rattle.twin_log.specs.Opening.{HeadOf, OpensSide, head_with};
ghost use Rattle.twin_log.specs.LogCalls.{CountsTwins, FindsTwin, IsSyncedTold, LeavesAsBefore, OpensTwin, ReadsTwin, cause_counted, plain_cause};

use crate::fault::LogCause;
use crate::generation::generation_in;
use crate::side::{Holding, Side, which_holds};
use gate_log::{Found, LogEnd, find_end, find_gate};
use rpc_record::Failed;
use std::alloc::Global;
use std::marker::Model;
use store_disk::Disk;

/// The bytes of a record before its body: the gate, and the body's length.
pub(crate) const HEAD: u64 = 5;

/// A log in two files, of which one has it. The disks are handed to each call, always the same two in the same order.
#[derive(Drop)]
pub struct KeptLog {
    pub(crate) alloc: Global,
    pub(crate) side: Side,
    pub(crate) generation: Option<u64>,
    pub(crate) size: u64,
    pub(crate) end: u64,
    pub(crate) at: u64,
    pub(crate) next: u64,
    pub(crate) place: u64,
    pub(crate) renewed: Option<u64>,
}

impl Model for KeptLog {
    ghost use Rattle.std.specs.Prelude.{◌^◌, ◌-◌, ◌<◌, ◌≤◌, IfSome};
    ghost use Rattle.twin_log.specs.KeptLogs.{KeptLogState, IsOrdered};

    ghost Value = { KeptLogState };

    ghost view = { λ l. record {
      side = l.side;
      generation = l.generation;
      size = l.size;
      end = l.end;
      at = l.at;
      next = l.next;
      place = l.place;
      renewed = l.renewed;
    } };

    ghost invariant = { λ l. IsOrdered (record {
      side = l.side;
      generation = l.generation;
      size = l.size;
      end = l.end;
      at = l.at;
      next = l.next;
      place = l.place;
      renewed = l.renewed;
    }) };
}

/// What a file begins with: how many bytes it has, its generation, where it has a record, and the place of the first body that
/// is not the generation's.
#[derive(Clone, Copy)]
struct FileHead {
    size: u64,
    generation: Option<u64>,
    start: u64,
}

/// The head of a file whose first record has this body.
fn head_with(size: u64, body: &[u8]) -> FileHead
    requires { 5 + length body.now ≤ size }
    ensures { result ≡ head_with size body.now }
{
    let generation = generation_in(body);
    let start = if generation == 0 {
        0
    } else {
        HEAD + body.len() as u64
    };
    FileHead {
        size,
        generation: Some(generation),
        start,
    }
}

/// Reads what a file begins with.
fn head_of<D: Disk>(alloc: Global, disk: &mut D) -> Result<FileHead, Failed>
    ensures head { HeadOf (D.told disk.old) result }
    ensures within { IfOk result (λ head. head.start ≤ head.size) }
    ensures some { IfOk result (λ head. head.generation ≢ None → 1 < head.size) }
    ensures same { D.told disk.new ≡ D.told disk.old }
    ensures faults { D.faults disk.new ≡ counted result (D.faults disk.old) }
{
    let size = disk.length()?;
    let none = FileHead {
        size,
        generation: None,
        start: 0,
    };
    if size <= 1 {
        return Ok(none);
    }
    let mut body = Vec::new(alloc);
    match find_gate(disk, size, 0, &mut body)? {
        Found::Absent => Ok(none),
        Found::Closed => Ok(none),
        Found::Broken => Ok(FileHead {
            size,
            generation: Some(0),
            start: 0,
        }),
        Found::Opens => Ok(head_with(size, &body)),
    }
}

/// Opens the log on the file that has it.
fn open_side<D: Disk>(
    alloc: Global,
    side: Side,
    head: FileHead,
    disk: &mut D,
) -> Result<KeptLog, LogCause>
    requires within { head.start ≤ head.size }
    requires some { 1 < head.size }
    ensures opens { OpensSide side head (D.told disk.old) result }
    ensures same { D.told disk.new ≡ D.told disk.old }
    ensures faults { D.faults disk.new ≡ cause_counted result (D.faults disk.old) }
{
    match find_end(disk, head.size)? {
        LogEnd::Cut(at) => Err(LogCause::BadLog(at)),
        LogEnd::Whole(end) => Ok(KeptLog {
            alloc,
            side,
            generation: head.generation,
            size: head.size,
            end,
            at: end,
            next: head.start,
            place: 0,
            renewed: None,
        }),
    }
}

/// What stands at a place of the file of a side, where a gate byte is due.
fn find_on<D: Disk>(
    side: Side,
    disk: &mut D,
    spare: &mut D,
    size: u64,
    at: u64,
    body: &mut Vec<u8>,
) -> Result<Found, Failed>
    requires { at ≤ size }
    ensures found { FindsGate (at_side side (D.told disk.old) (D.told spare.old)) size at result body.new.items }
    ensures within { LiesWithin size at result body.new.items }
    ensures same { D.told disk.new ≡ D.told disk.old }
    ensures same_spare { D.told spare.new ≡ D.told spare.old }
    ensures faults { CountsTwins result (D.faults disk.old) (D.faults spare.old) (D.faults disk.new) (D.faults spare.new) }
{
    match side {
        Side::Disk => find_gate(disk, size, at, body),
        Side::Spare => find_gate(spare, size, at, body),
    }
}

/// Syncs both disks.
fn sync_both<D: Disk>(disk: &mut D, spare: &mut D) -> Result<(), Failed>
    ensures crash { LeavesAsBefore (D.told disk.old) (D.told disk.new) }
    ensures crash_spare { LeavesAsBefore (D.told spare.old) (D.told spare.new) }
    ensures synced { OnOk result (IsSyncedTold (D.told disk.old) (D.told disk.new) × IsSyncedTold (D.told spare.old) (D.told spare.new)) }
    ensures faults { CountsTwins result (D.faults disk.old) (D.faults spare.old) (D.faults disk.new) (D.faults spare.new) }
{
    disk.sync()?;
    spare.sync()
}

/// Finds the log that two disks have between them, of which all is synced.
fn find_log<D: Disk>(alloc: Global, disk: &mut D, spare: &mut D) -> Result<KeptLog, LogCause>
    ensures finds { FindsTwin (D.told disk.old) (D.told spare.old) result }
    ensures same { D.told disk.new ≡ D.told disk.old }
    ensures same_spare { D.told spare.new ≡ D.told spare.old }
    ensures faults { CountsTwins (plain_cause result) (D.faults disk.old) (D.faults spare.old) (D.faults disk.new) (D.faults spare.new) }
{
    let ours = head_of(alloc, disk)?;
    let theirs = head_of(alloc, spare)?;
    match which_holds(ours.generation, theirs.generation) {
        Holding::Neither => Ok(KeptLog::new_pair(alloc)),
        Holding::Both => Err(LogCause::BadLog(0)),
        Holding::On(Side::Disk) => open_side(alloc, Side::Disk, ours, disk),
        Holding::On(Side::Spare) => open_side(alloc, Side::Spare, theirs, spare),
    }
}

impl KeptLog {
    /// The log of a pair of files that have none. A renewal goes into the disk.
    fn new_pair(alloc: Global) -> KeptLog
        ensures { result ≡ new_pair }
    {
        KeptLog {
            alloc,
            side: Side::Spare,
            generation: None,
            size: 0,
            end: 0,
            at: 0,
            next: 0,
            place: 0,
            renewed: None,
        }
    }

    /// Opens the log that two disks have between them. Begins with a sync of each, and does nothing else to them.
    pub fn open<D: Disk>(alloc: Global, disk: &mut D, spare: &mut D) -> Result<KeptLog, LogCause>
        ensures opens { OpensTwin (D.told disk.old) (D.told spare.old) result (D.told disk.new) (D.told spare.new) }
        ensures crash { LeavesAsBefore (D.told disk.old) (D.told disk.new) }
        ensures crash_spare { LeavesAsBefore (D.told spare.old) (D.told spare.new) }
        ensures faults { CountsTwins (plain_cause result) (D.faults disk.old) (D.faults spare.old) (D.faults disk.new) (D.faults spare.new) }
    {
        sync_both(disk, spare)?;
        find_log(alloc, disk, spare)
    }

    /// Reads the next body of the log, and says whether there was one. Memory is taken only for a body that lies within its file.
    ///
    /// # Errors
    ///
    /// `BadLog` only where a disk gives other bytes than when the log was opened.
    pub fn read<D: Disk>(
        &mut self,
        disk: &mut D,
        spare: &mut D,
        into: &mut Vec<u8>,
    ) -> Result<bool, LogCause>
        ensures reads { ReadsTwin self.old (D.told disk.old) (D.told spare.old) result into.new.items self.new }
        ensures side { self.new.side ≡ self.old.side }
        ensures on { result ≡ Ok true → self.old.next < self.new.next }
        ensures failed { OnErr result (self.new ≡ self.old) }
        ensures within { self.new.next ≤ self.new.size }
        ensures size { self.new.size ≡ self.old.size }
        ensures same { D.told disk.new ≡ D.told disk.old }
        ensures same_spare { D.told spare.new ≡ D.told spare.old }
        ensures faults { CountsTwins (plain_cause result) (D.faults disk.old) (D.faults spare.old) (D.faults disk.new) (D.faults spare.new) }
    {
        if self.next >= self.end {
            return Ok(false);
        }
        match find_on(self.side, disk, spare, self.size, self.next, into)? {
            Found::Opens => {
                self.place = self.next;
                self.next += HEAD + into.len() as u64;
                Ok(true)
            }
            Found::Absent => Err(LogCause::BadLog(self.next)),
            Found::Closed => Err(LogCause::BadLog(self.next)),
            Found::Broken => Err(LogCause::BadLog(self.next)),
        }
    }

    /// The generation, and None of a pair that has no log.
    pub fn generation(&self) -> Option<u64>
        ensures { result ≡ self.now.generation }
    {
        self.generation
    }

    /// How many bytes the file has that records are appended to.
    pub fn length(&self) -> u64
        ensures { result ≡ self.now.size }
    {
        self.size
    }

    /// Where the record begins of the body that was read last, and 0 before the first.
    pub fn place(&self) -> u64
        ensures { result ≡ self.now.place }
    {
        self.place
    }

    /// All bodies were read.
    pub fn is_read(&self) -> bool
        ensures { result ≡ nat_le self.now.end self.now.next }
    {
        self.next >= self.end
    }

    /// A record may be appended: there is a generation, no renewal is under way, and all bodies were read.
    pub fn can_append(&self) -> bool
        ensures { result ≡ can_append self.now }
    {
        if self.generation.is_none() {
            return false;
        }
        if self.renewed.is_some() {
            return false;
        }
        self.next >= self.end
    }

    /// A renewal may begin: none is under way, and the generation has one behind it.
    pub fn can_begin(&self) -> bool
        ensures { result ≡ can_begin self.now }
    {
        if self.renewed.is_some() {
            return false;
        }
        match self.generation {
            None => true,
            Some(generation) => generation < u64::MAX,
        }
    }

    /// A renewal is under way.
    pub fn is_renewing(&self) -> bool
        ensures { result ≡ is_some self.now.renewed }
    {
        self.renewed.is_some()
    }
}
