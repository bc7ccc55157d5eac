//! Appending to a log in two files.

ghost use Rattle.std.specs.Prelude.{◌≡◌, ◌≢◌, ◌+◌, ◌<◌, ◌≤◌, ◌-◌, ◌^◌, List, ℕ, [], OnOk, IfOk, length, max};
ghost use Rattle.twin_log.specs.Twins.{Has};
ghost use Rattle.twin_log.specs.KeptLogs.{StandsTwin, WaitsTwin, has_waiting};
ghost use Rattle.twin_log.specs.LogCalls.{AppendsTwin, CountsTwins, SealsTwin, StagesOn, SealsOn, TellAsBefore, WaitsMore, sealed_log, staged_log};

use crate::kept_log::KeptLog;
use crate::side::Side;
use gate_log::{Gated, seal, stage};
use rpc_record::Failed;
use store_disk::Disk;

/// Writes a record that waits in the file of a side.
pub(crate) fn stage_on<D: Disk>(
    side: Side,
    disk: &mut D,
    spare: &mut D,
    end: u64,
    at: u64,
    body: &Gated,
) -> Result<u64, Failed>
    requires order { end ≤ at }
    requires bounded { at < 2 ^ 64 - 1 }
    ensures stages { StagesOn side (D.told disk.old) (D.told spare.old) end at body.now result (D.told disk.new) (D.told spare.new) }
    ensures end { IfOk result (λ next. (next ≡ at + 5 + length body.now) × (next < 2 ^ 64 - 1)) }
    ensures tells { TellAsBefore (D.told disk.old) (D.told spare.old) (D.told disk.new) (D.told spare.new) }
    ensures faults { CountsTwins result (D.faults disk.old) (D.faults spare.old) (D.faults disk.new) (D.faults spare.new) }
{
    match side {
        Side::Disk => stage(disk, end, at, body),
        Side::Spare => stage(spare, end, at, body),
    }
}

/// Makes the records that wait in the file of a side part of its log.
pub(crate) fn seal_on<D: Disk>(
    side: Side,
    disk: &mut D,
    spare: &mut D,
    end: u64,
    at: u64,
) -> Result<(), Failed>
    requires { end < at }
    ensures seals { SealsOn side (D.told disk.old) (D.told spare.old) end at result (D.told disk.new) (D.told spare.new) }
    ensures tells { TellAsBefore (D.told disk.old) (D.told spare.old) (D.told disk.new) (D.told spare.new) }
    ensures faults { CountsTwins result (D.faults disk.old) (D.faults spare.old) (D.faults disk.new) (D.faults spare.new) }
{
    match side {
        Side::Disk => seal(disk, end, at),
        Side::Spare => seal(spare, end, at),
    }
}

impl KeptLog {
    /// Writes a record behind those that wait; `seal` makes all of them part of the log. It takes no memory.
    ///
    /// Behind an error the log is to be opened anew.
    pub fn stage<D: Disk>(
        &mut self,
        disk: &mut D,
        spare: &mut D,
        body: &Gated,
    ) -> Result<(), Failed>
        ensures stages { (generation start : ℕ) (bodies staged : List (List ℕ)) → WaitsTwin self.old generation start bodies staged (D.told disk.old) (D.told spare.old) → WaitsMore self.old (D.told disk.old) (D.told spare.old) generation start bodies staged body.now result self.new (D.told disk.new) (D.told spare.new) }
        ensures side { self.new.side ≡ self.old.side }
        ensures length { OnOk result (self.new.size ≡ max self.old.size (self.old.at + 6 + length body.now)) }
        ensures moves { OnOk result (self.new ≡ staged_log self.old (length body.now)) }
        ensures waits { OnOk result (self.new.end < self.new.at) }
        ensures tells { TellAsBefore (D.told disk.old) (D.told spare.old) (D.told disk.new) (D.told spare.new) }
        ensures faults { CountsTwins result (D.faults disk.old) (D.faults spare.old) (D.faults disk.new) (D.faults spare.new) }
    {
        let at = stage_on(self.side, disk, spare, self.end, self.at, body)?;
        self.at = at;
        self.size = self.size.max(at + 1);
        Ok(())
    }

    /// Records wait behind the log.
    pub fn has_waiting(&self) -> bool
        ensures { result ≡ has_waiting self.now }
    {
        self.end < self.at
    }

    /// Makes the records that wait part of the log, in three calls of its disk: a crash leaves it without them, or with all of them, and
    /// once this is done with all. Where none waits nothing is done. They count as read.
    ///
    /// Behind an error the log is to be opened anew.
    pub fn seal<D: Disk>(&mut self, disk: &mut D, spare: &mut D) -> Result<(), Failed>
        ensures seals { (generation start : ℕ) (bodies staged : List (List ℕ)) → WaitsTwin self.old generation start bodies staged (D.told disk.old) (D.told spare.old) → staged ≢ [] → SealsTwin self.old (D.told disk.old) (D.told spare.old) generation start bodies staged result self.new (D.told disk.new) (D.told spare.new) }
        ensures side { self.new.side ≡ self.old.side }
        ensures length { self.new.size ≡ self.old.size }
        ensures moves { OnOk result (self.old.end < self.old.at → self.new ≡ sealed_log self.old) }
        ensures tells { TellAsBefore (D.told disk.old) (D.told spare.old) (D.told disk.new) (D.told spare.new) }
        ensures faults { CountsTwins result (D.faults disk.old) (D.faults spare.old) (D.faults disk.new) (D.faults spare.new) }
    {
        if self.at == self.end {
            return Ok(());
        }
        seal_on(self.side, disk, spare, self.end, self.at)?;
        self.end = self.at;
        self.next = self.at;
        Ok(())
    }

    /// Appends a body, in four calls of its disk: a crash leaves the log with it or without it, and once this is done with it. All bodies
    /// count as read. It takes no memory.
    ///
    /// Behind an error the log is to be opened anew.
    pub fn append<D: Disk>(
        &mut self,
        disk: &mut D,
        spare: &mut D,
        body: &Gated,
    ) -> Result<(), Failed>
        ensures appends { (generation start : ℕ) (bodies : List (List ℕ)) → StandsTwin self.old (Has generation start bodies) (D.told disk.old) (D.told spare.old) → AppendsTwin self.old (D.told disk.old) (D.told spare.old) generation start bodies body.now result self.new (D.told disk.new) (D.told spare.new) }
        ensures moves { OnOk result (self.new ≡ sealed_log (staged_log self.old (length body.now))) }
        ensures tells { TellAsBefore (D.told disk.old) (D.told spare.old) (D.told disk.new) (D.told spare.new) }
        ensures faults { CountsTwins result (D.faults disk.old) (D.faults spare.old) (D.faults disk.new) (D.faults spare.new) }
    {
        self.stage(disk, spare, body)?;
        self.seal(disk, spare)
    }
}
