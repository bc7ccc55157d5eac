//! A log in two files together with its two disks.

ghost use Rattle.std.specs.Prelude.{◌≡◌, ◌+◌, ◌++◌, ◌^◌, ◌<◌, ◌≤◌, ◌≢◌, List, ℕ, Some, None, OnOk, OnErr, true, length};
ghost use Rattle.twin_log.specs.Twins.{Has, TwinLog};
ghost use Rattle.twin_log.specs.KeptLogs.{RenewsTwin, StandsTwin, can_begin};
ghost use Rattle.twin_log.specs.LogCalls.{AppendsTwin, BeginsRenewal, CountsTwins, EndsRenewal, HasRenewed, PutsMore, ReadsTwin, plain_cause, sealed_log, staged_log};
ghost use Rattle.twin_log.specs.LogErrors.{log_answer, read_answer, spent_behind, spent_by_reading};
ghost use Rattle.twin_log.specs.GateLogs.{AnswersLog, CountsLog, CountsReading, IsLastingError, OpensGateLog, ReadsGateLog, may_append, may_begin, may_put};

use crate::fault::{LogCause, LogError};
use crate::kept_log::KeptLog;
use gate_log::Gated;
use rpc_record::Failed;
use std::alloc::Global;
use std::marker::Model;
use store_disk::Disk;

/// Why a log could not be opened; the disks are given back.
#[derive(Drop)]
pub enum LogFault<D> {
    /// A disk failed.
    Disk(D, D),
    /// The log is bad at this byte of the file that has it; at 0 where both files have the same generation.
    BadLog { disk: D, spare: D, place: u64 },
    /// Memory was wanted.
    NoMemory(D, D),
}

/// A log and its disks, which one call borrows all.
#[derive(Drop)]
struct Parts<D> {
    log: KeptLog,
    disk: D,
    spare: D,
}

/// A log in two files together with its two disks.
#[derive(Drop)]
pub struct GateLog<D: Disk> {
    alloc: Global,
    parts: Parts<D>,
    // why it is to be opened again
    spent: Option<LogError>,
}

impl<D: Disk> Model for GateLog<D> {
    ghost use Rattle.twin_log.specs.GateLogs.{GateLogState, IsLastingError};

    ghost Value = { GateLogState };

    ghost view = { λ l. record {
      log = l.parts.log;
      disk = D.told l.parts.disk;
      spare = D.told l.parts.spare;
      disk_faults = D.faults l.parts.disk;
      spare_faults = D.faults l.parts.spare;
      spent = l.spent;
    } };

    ghost invariant = { λ l. IsLastingError l.spent };
}

/// What a call answers that went so, and what is answered from then on.
fn settle(spent: &mut Option<LogError>, went: Result<(), Failed>) -> Result<(), LogError>
    ensures answer { result ≡ log_answer went }
    ensures spent { spent.new ≡ spent_behind went spent.old }
    ensures lasting { IsLastingError spent.old → IsLastingError spent.new }
{
    match went {
        Ok(()) => Ok(()),
        Err(Failed::Fault) => {
            *spent = Some(LogError::Broken);
            Err(LogError::Disk)
        }
        Err(Failed::NoMemory) => {
            *spent = Some(LogError::NoMemory);
            Err(LogError::NoMemory)
        }
    }
}

/// The same of a reading.
fn settle_reading(
    spent: &mut Option<LogError>,
    went: Result<bool, LogCause>,
) -> Result<bool, LogError>
    ensures answer { result ≡ read_answer went }
    ensures spent { spent.new ≡ spent_by_reading went spent.old }
    ensures lasting { IsLastingError spent.old → IsLastingError spent.new }
{
    match went {
        Ok(is_one) => Ok(is_one),
        Err(LogCause::Disk) => {
            *spent = Some(LogError::Broken);
            Err(LogError::Disk)
        }
        Err(LogCause::BadLog(_)) => {
            *spent = Some(LogError::Broken);
            Err(LogError::Disk)
        }
        Err(LogCause::NoMemory) => Err(LogError::NoMemory),
    }
}

/// Reads the next body.
fn read_from<D: Disk>(parts: &mut Parts<D>, into: &mut Vec<u8>) -> Result<bool, LogCause>
    ensures reads { ReadsTwin parts.old.log (D.told parts.old.disk) (D.told parts.old.spare) result into.new.items parts.new.log }
    ensures failed { OnErr result (parts.new.log ≡ parts.old.log) }
    ensures on { result ≡ Ok true → parts.old.log.next < parts.new.log.next }
    ensures within { parts.new.log.next ≤ parts.new.log.size }
    ensures size { parts.new.log.size ≡ parts.old.log.size }
    ensures same { D.told parts.new.disk ≡ D.told parts.old.disk }
    ensures same_spare { D.told parts.new.spare ≡ D.told parts.old.spare }
    ensures faults { CountsTwins (plain_cause result) (D.faults parts.old.disk) (D.faults parts.old.spare) (D.faults parts.new.disk) (D.faults parts.new.spare) }
{
    parts.log.read(&mut parts.disk, &mut parts.spare, into)
}

/// Appends a body.
fn append_to<D: Disk>(parts: &mut Parts<D>, body: &Gated) -> Result<(), Failed>
    ensures appends { (generation start : ℕ) (bodies : List (List ℕ)) → StandsTwin parts.old.log (Has generation start bodies) (D.told parts.old.disk) (D.told parts.old.spare) → AppendsTwin parts.old.log (D.told parts.old.disk) (D.told parts.old.spare) generation start bodies body.now result parts.new.log (D.told parts.new.disk) (D.told parts.new.spare) }
    ensures moves { OnOk result (parts.new.log ≡ sealed_log (staged_log parts.old.log (length body.now))) }
    ensures faults { CountsTwins result (D.faults parts.old.disk) (D.faults parts.old.spare) (D.faults parts.new.disk) (D.faults parts.new.spare) }
{
    parts.log.append(&mut parts.disk, &mut parts.spare, body)
}

/// Begins a renewal.
fn begin_in<D: Disk>(parts: &mut Parts<D>) -> Result<(), Failed>
    requires { can_begin parts.old.log ≡ true }
    ensures begins { (says : TwinLog) → StandsTwin parts.old.log says (D.told parts.old.disk) (D.told parts.old.spare) → BeginsRenewal parts.old.log (D.told parts.old.disk) (D.told parts.old.spare) says result parts.new.log (D.told parts.new.disk) (D.told parts.new.spare) }
    ensures renews { OnOk result (parts.new.log.renewed ≢ None) }
    ensures keeps { parts.new.log ≡ record parts.old.log { renewed = parts.new.log.renewed } }
    ensures faults { CountsTwins result (D.faults parts.old.disk) (D.faults parts.old.spare) (D.faults parts.new.disk) (D.faults parts.new.spare) }
{
    parts.log.begin(&mut parts.disk, &mut parts.spare)
}

/// Writes the next body of the new log.
fn put_to<D: Disk>(parts: &mut Parts<D>, body: &Gated) -> Result<(), Failed>
    requires { parts.old.log.renewed ≢ None }
    ensures puts { (says : TwinLog) (put : List (List ℕ)) → RenewsTwin parts.old.log says put (D.told parts.old.disk) (D.told parts.old.spare) → PutsMore parts.old.log (D.told parts.old.disk) (D.told parts.old.spare) says put body.now result parts.new.log (D.told parts.new.disk) (D.told parts.new.spare) }
    ensures renews { OnOk result (parts.new.log.renewed ≢ None) }
    ensures keeps { parts.new.log ≡ record parts.old.log { renewed = parts.new.log.renewed } }
    ensures faults { CountsTwins result (D.faults parts.old.disk) (D.faults parts.old.spare) (D.faults parts.new.disk) (D.faults parts.new.spare) }
{
    parts.log.put(&mut parts.disk, &mut parts.spare, body)
}

/// Ends a renewal.
fn end_in<D: Disk>(parts: &mut Parts<D>) -> Result<(), Failed>
    requires { parts.old.log.renewed ≢ None }
    ensures ends { (says : TwinLog) (put : List (List ℕ)) → RenewsTwin parts.old.log says put (D.told parts.old.disk) (D.told parts.old.spare) → EndsRenewal parts.old.log (D.told parts.old.disk) (D.told parts.old.spare) put result parts.new.log (D.told parts.new.disk) (D.told parts.new.spare) }
    ensures renewed { OnOk result (HasRenewed parts.old.log parts.new.log) }
    ensures faults { CountsTwins result (D.faults parts.old.disk) (D.faults parts.old.spare) (D.faults parts.new.disk) (D.faults parts.new.spare) }
{
    parts.log.end(&mut parts.disk, &mut parts.spare)
}

impl<D: Disk + Drop> GateLog<D> {
    /// Opens the log that two disks have between them. Begins with a sync of each, and does nothing else to them.
    pub fn open(alloc: Global, mut disk: D, mut spare: D) -> Result<GateLog<D>, LogFault<D>>
        ensures { OpensGateLog D.told D.faults (D.told disk) (D.told spare) (D.faults disk) (D.faults spare) result }
    {
        match KeptLog::open(alloc, &mut disk, &mut spare) {
            Ok(log) => Ok(GateLog {
                alloc,
                parts: Parts { log, disk, spare },
                spent: None,
            }),
            Err(LogCause::Disk) => Err(LogFault::Disk(disk, spare)),
            Err(LogCause::BadLog(place)) => Err(LogFault::BadLog { disk, spare, place }),
            Err(LogCause::NoMemory) => Err(LogFault::NoMemory(disk, spare)),
        }
    }

    /// A log that is open, and its disks, put together. No call of them failed since it was opened.
    pub fn from_parts(alloc: Global, log: KeptLog, disk: D, spare: D) -> GateLog<D>
        ensures { result ≡ record { log = log; disk = D.told disk; spare = D.told spare; disk_faults = D.faults disk; spare_faults = D.faults spare; spent = None } }
    {
        GateLog {
            alloc,
            parts: Parts { log, disk, spare },
            spent: None,
        }
    }

    /// Reads the next body of the log, and says whether there was one. Memory is taken only for a body that lies within its
    /// file; at want of it nothing has changed.
    pub fn body(&mut self, into: &mut Vec<u8>) -> Result<bool, LogError>
        ensures reads { ReadsGateLog self.old result into.new.items self.new }
        ensures answers { AnswersLog self.old.spent self.old result self.new }
        ensures on { result ≡ Ok true → self.old.log.next < self.new.log.next }
        ensures within { OnOk result (self.new.log.next ≤ self.new.log.size) }
        ensures size { self.new.log.size ≡ self.old.log.size }
        ensures same { self.new.disk ≡ self.old.disk }
        ensures same_spare { self.new.spare ≡ self.old.spare }
        ensures faults { CountsReading result self.old self.new }
    {
        if let Some(error) = self.spent {
            return Err(error);
        }
        let went = read_from(&mut self.parts, into);
        settle_reading(&mut self.spent, went)
    }

    /// Appends a body: a crash leaves the log with it or without it, and once this is done with it. Its memory is taken
    /// first: at want of that nothing has changed.
    pub fn append(&mut self, body: &[u8]) -> Result<(), LogError>
        requires short { length body.now < 2 ^ 32 }
        requires may { may_append self.old ≡ true }
        ensures appends { (generation start : ℕ) (bodies : List (List ℕ)) → StandsTwin self.old.log (Has generation start bodies) self.old.disk self.old.spare → AppendsTwin self.old.log self.old.disk self.old.spare generation start bodies body.now result self.new.log self.new.disk self.new.spare }
        ensures moves { OnOk result (self.new.log ≡ sealed_log (staged_log self.old.log (length body.now))) }
        ensures answers { AnswersLog self.old.spent self.old result self.new }
        ensures faults { CountsLog result self.old self.new }
    {
        if let Some(error) = self.spent {
            return Err(error);
        }
        let Ok(record) = Gated::new(self.alloc, body) else {
            return Err(LogError::NoMemory);
        };
        let went = append_to(&mut self.parts, &record);
        settle(&mut self.spent, went)
    }

    /// Begins a renewal: a new log, with the next generation, in the other file.
    pub fn begin(&mut self) -> Result<(), LogError>
        requires may { may_begin self.old ≡ true }
        ensures begins { (says : TwinLog) → StandsTwin self.old.log says self.old.disk self.old.spare → BeginsRenewal self.old.log self.old.disk self.old.spare says result self.new.log self.new.disk self.new.spare }
        ensures renews { OnOk result (self.new.log.renewed ≢ None) }
        ensures keeps { self.new.log ≡ record self.old.log { renewed = self.new.log.renewed } }
        ensures answers { AnswersLog self.old.spent self.old result self.new }
        ensures faults { CountsLog result self.old self.new }
    {
        if let Some(error) = self.spent {
            return Err(error);
        }
        let went = begin_in(&mut self.parts);
        settle(&mut self.spent, went)
    }

    /// Writes the next body of the new log. Its memory is taken first: at want of that nothing has changed.
    pub fn put(&mut self, body: &[u8]) -> Result<(), LogError>
        requires short { length body.now < 2 ^ 32 }
        requires may { may_put self.old ≡ true }
        ensures puts { (says : TwinLog) (put : List (List ℕ)) → RenewsTwin self.old.log says put self.old.disk self.old.spare → PutsMore self.old.log self.old.disk self.old.spare says put body.now result self.new.log self.new.disk self.new.spare }
        ensures renews { OnOk result (self.new.log.renewed ≢ None) }
        ensures keeps { self.new.log ≡ record self.old.log { renewed = self.new.log.renewed } }
        ensures answers { AnswersLog self.old.spent self.old result self.new }
        ensures faults { CountsLog result self.old self.new }
    {
        if let Some(error) = self.spent {
            return Err(error);
        }
        let Ok(record) = Gated::new(self.alloc, body) else {
            return Err(LogError::NoMemory);
        };
        let went = put_to(&mut self.parts, &record);
        settle(&mut self.spent, went)
    }

    /// Ends a renewal: the new log takes the old one's place, all of its bodies counting as read.
    pub fn end(&mut self) -> Result<(), LogError>
        requires may { may_put self.old ≡ true }
        ensures ends { (says : TwinLog) (put : List (List ℕ)) → RenewsTwin self.old.log says put self.old.disk self.old.spare → EndsRenewal self.old.log self.old.disk self.old.spare put result self.new.log self.new.disk self.new.spare }
        ensures renewed { OnOk result (HasRenewed self.old.log self.new.log) }
        ensures answers { AnswersLog self.old.spent self.old result self.new }
        ensures faults { CountsLog result self.old self.new }
    {
        if let Some(error) = self.spent {
            return Err(error);
        }
        let went = end_in(&mut self.parts);
        settle(&mut self.spent, went)
    }

    /// The generation, and None of a pair that has no log.
    pub fn generation(&self) -> Option<u64>
        ensures { result ≡ self.now.log.generation }
    {
        self.parts.log.generation()
    }

    /// How many bytes the file has that records are appended to.
    pub fn length(&self) -> u64
        ensures { result ≡ self.now.log.size }
    {
        self.parts.log.length()
    }

    /// Where the record begins of the body that was read last, and 0 before the first.
    pub fn place(&self) -> u64
        ensures { result ≡ self.now.log.place }
    {
        self.parts.log.place()
    }

    /// Why the log is to be opened again, where a call of a disk failed.
    pub fn spent(&self) -> Option<LogError>
        ensures { result ≡ self.now.spent }
    {
        self.spent
    }

    /// `append` may be called: a record may be appended, or a call failed before.
    pub fn may_append(&self) -> bool
        ensures { result ≡ may_append self.now }
    {
        if self.spent.is_some() {
            return true;
        }
        self.parts.log.can_append()
    }

    /// `begin` may be called: a renewal may begin, or a call failed before.
    pub fn may_begin(&self) -> bool
        ensures { result ≡ may_begin self.now }
    {
        if self.spent.is_some() {
            return true;
        }
        self.parts.log.can_begin()
    }

    /// `put` and `end` may be called: a renewal is under way, or a call failed before.
    pub fn may_put(&self) -> bool
        ensures { result ≡ may_put self.now }
    {
        if self.spent.is_some() {
            return true;
        }
        self.parts.log.is_renewing()
    }

    /// The log, the disk and the spare, apart.
    pub fn into_parts(self) -> (KeptLog, D, D)
        ensures log { result.0 ≡ self.log }
        ensures told { D.told result.1 ≡ self.disk }
        ensures told_spare { D.told result.2 ≡ self.spare }
        ensures faults { D.faults result.1 ≡ self.disk_faults }
        ensures faults_spare { D.faults result.2 ≡ self.spare_faults }
    {
        let Parts { log, disk, spare } = self.parts;
        (log, disk, spare)
    }

    /// The disk and the spare, as they are.
    pub fn close(self) -> (D, D)
        ensures told { D.told result.0 ≡ self.disk }
        ensures told_spare { D.told result.1 ≡ self.spare }
        ensures faults { D.faults result.0 ≡ self.disk_faults }
        ensures faults_spare { D.faults result.1 ≡ self.spare_faults }
    {
        let Parts { disk, spare, .. } = self.parts;
        (disk, spare)
    }
}
