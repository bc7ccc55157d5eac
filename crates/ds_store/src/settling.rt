//! Settling: the records that wait become part of the log, synced together, and the log is renewed where it is too long.

ghost use Rattle.std.specs.Prelude.{◌≡◌, None, Option, OnOk, true};
ghost use Rattle.cluster_model.specs.Server.{ServerState};
ghost use Rattle.store_disk.specs.Disks.{DiskLife};
ghost use Rattle.twin_log.specs.KeptLogs.{has_next, has_waiting};
ghost use Rattle.twin_log.specs.LogCalls.{CountsTwins};
ghost use Rattle.ds_store.specs.Renewals.{IsWithinThen, SettlesLog, is_to_renew};
ghost use Rattle.ds_store.specs.Kept.{LogsStep, SettlesCall, SpendsBy, WaitsSince, plain_fault};

use crate::fault::StoreFault;
use crate::kept::KeptServer;
use crate::renewing::{log_limit, renew};
use rpc_record::Failed;
use store_disk::Disk;

/// A generation has one behind it.
fn has_next(generation: Option<u64>) -> bool
    ensures { result ≡ has_next generation }
{
    match generation {
        None => true,
        Some(generation) => generation < u64::MAX,
    }
}

impl KeptServer {
    /// Whether the log is longer than its limit, and has a generation behind it. What it says is counted only where it outgrew
    /// the limit of the last count.
    fn is_to_renew(&mut self) -> bool
        ensures same { self.new ≡ self.old }
        ensures longer { result ≡ is_to_renew self.old.server self.old.log }
    {
        if self.log.length() <= self.limit {
            return false;
        }
        self.limit = log_limit(&self.server);
        self.log.length() > self.limit && has_next(self.log.generation())
    }

    /// Makes the records that wait part of the log, and renews it where it is longer than what it says makes good.
    fn seal_and_renew<D: Disk>(&mut self, disk: &mut D, spare: &mut D) -> Result<(), Failed>
        requires waiting { has_waiting self.old.log ≡ true }
        ensures settles { (settled : ServerState) (began began_spare : Option DiskLife) → WaitsSince settled self.old.server self.old.log began began_spare (D.told disk.old) (D.told spare.old) → LogsStep settled self.old.server began began_spare result self.new.log (D.told disk.new) (D.told spare.new) }
        ensures server { self.new.server ≡ self.old.server }
        ensures spent { self.new.spent ≡ self.old.spent }
        ensures log { OnOk result (SettlesLog self.old.server self.old.log self.new.log) }
        ensures within { (settled : ServerState) (began began_spare : Option DiskLife) → WaitsSince settled self.old.server self.old.log began began_spare (D.told disk.old) (D.told spare.old) → IsWithinThen self.old.server self.old.log result self.new.log (D.told disk.new) (D.told spare.new) }
        ensures faults { CountsTwins result (D.faults disk.old) (D.faults spare.old) (D.faults disk.new) (D.faults spare.new) }
    {
        self.log.seal(disk, spare)?;
        if !self.is_to_renew() {
            return Ok(());
        }
        renew(self.alloc, &self.server, &mut self.log, disk, spare)
    }

    /// Settles the records that wait, where there are some.
    pub(crate) fn settle_all<D: Disk>(
        &mut self,
        disk: &mut D,
        spare: &mut D,
    ) -> Result<(), StoreFault>
        requires going { self.old.spent ≡ None }
        ensures settles { (settled : ServerState) (began began_spare : Option DiskLife) → WaitsSince settled self.old.server self.old.log began began_spare (D.told disk.old) (D.told spare.old) → LogsStep settled self.old.server began began_spare result self.new.log (D.told disk.new) (D.told spare.new) }
        ensures server { self.new.server ≡ self.old.server }
        ensures spent { SpendsBy result self.new.spent }
        ensures log { OnOk result (SettlesLog self.old.server self.old.log self.new.log) }
        ensures within { (settled : ServerState) (began began_spare : Option DiskLife) → WaitsSince settled self.old.server self.old.log began began_spare (D.told disk.old) (D.told spare.old) → IsWithinThen self.old.server self.old.log result self.new.log (D.told disk.new) (D.told spare.new) }
        ensures faults { CountsTwins (plain_fault result) (D.faults disk.old) (D.faults spare.old) (D.faults disk.new) (D.faults spare.new) }
    {
        if !self.log.has_waiting() {
            return Ok(());
        }
        match self.seal_and_renew(disk, spare) {
            Ok(()) => Ok(()),
            Err(failed) => Err(self.spend(failed)),
        }
    }

    /// Settles what calls have changed for good that were taken together: their records become part of the log with one
    /// sync of them and one of its gate, a crash leaves none or all, and once this is done all. Then the log is renewed where it
    /// is longer than its limit. Where none waits nothing is done.
    ///
    /// Behind an error none of the calls is to be answered, and this is to be opened again.
    pub fn settle<D: Disk>(&mut self, disk: &mut D, spare: &mut D) -> Result<(), StoreFault>
        ensures steps { SettlesCall self.old.spent self.old (D.told disk.old) (D.told spare.old) result self.new (D.told disk.new) (D.told spare.new) }
        ensures settles { (settled : ServerState) (began began_spare : Option DiskLife) → WaitsSince settled self.old.server self.old.log began began_spare (D.told disk.old) (D.told spare.old) → LogsStep settled self.old.server began began_spare result self.new.log (D.told disk.new) (D.told spare.new) }
        ensures log { OnOk result (SettlesLog self.old.server self.old.log self.new.log) }
        ensures within { (settled : ServerState) (began began_spare : Option DiskLife) → WaitsSince settled self.old.server self.old.log began began_spare (D.told disk.old) (D.told spare.old) → IsWithinThen self.old.server self.old.log result self.new.log (D.told disk.new) (D.told spare.new) }
        ensures faults { CountsTwins (plain_fault result) (D.faults disk.old) (D.faults spare.old) (D.faults disk.new) (D.faults spare.new) }
    {
        if let Some(fault) = self.spent {
            return Err(fault);
        }
        self.settle_all(disk, spare)
    }
}
