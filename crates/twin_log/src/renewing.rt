//! Renewing a log: a new one in the other file takes its place.

ghost use Rattle.std.specs.Prelude.{◌≡◌, ◌≢◌, ◌+◌, ◌<◌, ◌-◌, ◌^◌, List, ℕ, Some, None, OnOk, IfSome};
ghost use Rattle.twin_log.specs.Twins.{TwinLog, at_side, opposite};
ghost use Rattle.twin_log.specs.KeptLogs.{RenewsTwin, StandsTwin, next_generation};
ghost use Rattle.twin_log.specs.LogCalls.{BeginsRenewal, ClearsOn, CountsTwins, EndsRenewal, HasRenewed, PutsMore, TellAsBefore};

use crate::appending::{seal_on, stage_on};
use crate::generation::generation_record;
use crate::kept_log::KeptLog;
use crate::side::Side;
use gate_log::{Gated, clear};
use rpc_record::Failed;
use store_disk::Disk;

/// Clears the file of a side.
#[tactic(auto, using(crate::proofs::Sides::clears_tell))]
fn clear_on<D: Disk>(side: Side, disk: &mut D, spare: &mut D) -> Result<(), Failed>
    ensures clears { ClearsOn side (D.told disk.old) (D.told spare.old) result (D.told disk.new) (D.told spare.new) }
    ensures tells { TellAsBefore (D.told disk.old) (D.told spare.old) (D.told disk.new) (D.told spare.new) }
    ensures faults { CountsTwins result (D.faults disk.old) (D.faults spare.old) (D.faults disk.new) (D.faults spare.new) }
{
    match side {
        Side::Disk => clear(disk),
        Side::Spare => clear(spare),
    }
}

/// The generation of the log that takes the place of one with this.
fn generation_behind(generation: Option<u64>) -> u64
    requires { IfSome generation (λ g. g < 2 ^ 64 - 1) }
    ensures { result ≡ next_generation generation }
{
    match generation {
        Some(generation) => generation + 1,
        None => 1,
    }
}

impl KeptLog {
    /// Begins a renewal: clears the other file, and writes the next generation's record there, which waits. Of a pair that has no log it goes
    /// into the disk, with generation 1.
    ///
    /// Behind an error the log is to be opened anew.
    pub fn begin<D: Disk>(&mut self, disk: &mut D, spare: &mut D) -> Result<(), Failed>
        requires room { IfSome self.old.generation (λ generation. generation < 2 ^ 64 - 1) }
        ensures begins { (says : TwinLog) → StandsTwin self.old says (D.told disk.old) (D.told spare.old) → BeginsRenewal self.old (D.told disk.old) (D.told spare.old) says result self.new (D.told disk.new) (D.told spare.new) }
        ensures renews { OnOk result (self.new.renewed ≢ None) }
        ensures keeps { self.new ≡ record self.old { renewed = self.new.renewed } }
        ensures tells { TellAsBefore (D.told disk.old) (D.told spare.old) (D.told disk.new) (D.told spare.new) }
        ensures faults { CountsTwins result (D.faults disk.old) (D.faults spare.old) (D.faults disk.new) (D.faults spare.new) }
    {
        let Ok(record) = generation_record(self.alloc, generation_behind(self.generation)) else {
            return Err(Failed::NoMemory);
        };
        clear_on(self.side.other(), disk, spare)?;
        let at = stage_on(self.side.other(), disk, spare, 0, 0, &record)?;
        self.renewed = Some(at);
        Ok(())
    }

    /// Writes the next body of the new log, which waits. It takes no memory.
    ///
    /// Behind an error the log is to be opened anew.
    pub fn put<D: Disk>(&mut self, disk: &mut D, spare: &mut D, body: &Gated) -> Result<(), Failed>
        requires { self.old.renewed ≢ None }
        ensures puts { (says : TwinLog) (put : List (List ℕ)) → RenewsTwin self.old says put (D.told disk.old) (D.told spare.old) → PutsMore self.old (D.told disk.old) (D.told spare.old) says put body.now result self.new (D.told disk.new) (D.told spare.new) }
        ensures renews { OnOk result (self.new.renewed ≢ None) }
        ensures keeps { self.new ≡ record self.old { renewed = self.new.renewed } }
        ensures tells { TellAsBefore (D.told disk.old) (D.told spare.old) (D.told disk.new) (D.told spare.new) }
        ensures faults { CountsTwins result (D.faults disk.old) (D.faults spare.old) (D.faults disk.new) (D.faults spare.new) }
    {
        let at = match self.renewed {
            Some(at) => at,
            None => return Ok(()),
        };
        let at = stage_on(self.side.other(), disk, spare, 0, at, body)?;
        self.renewed = Some(at);
        Ok(())
    }

    /// Ends a renewal: the new log takes the old one's place, all of its bodies counting as read.
    ///
    /// Behind an error the log is to be opened anew.
    pub fn end<D: Disk>(&mut self, disk: &mut D, spare: &mut D) -> Result<(), Failed>
        requires { self.old.renewed ≢ None }
        ensures ends { (says : TwinLog) (put : List (List ℕ)) → RenewsTwin self.old says put (D.told disk.old) (D.told spare.old) → EndsRenewal self.old (D.told disk.old) (D.told spare.old) put result self.new (D.told disk.new) (D.told spare.new) }
        ensures renewed { OnOk result (HasRenewed self.old self.new) }
        ensures tells { TellAsBefore (D.told disk.old) (D.told spare.old) (D.told disk.new) (D.told spare.new) }
        ensures faults { CountsTwins result (D.faults disk.old) (D.faults spare.old) (D.faults disk.new) (D.faults spare.new) }
    {
        let at = match self.renewed {
            Some(at) => at,
            None => return Ok(()),
        };
        let target = self.side.other();
        seal_on(target, disk, spare, 0, at)?;
        self.generation = Some(generation_behind(self.generation));
        self.side = target;
        self.size = at + 1;
        self.end = at;
        self.at = at;
        self.next = at;
        self.place = 0;
        self.renewed = None;
        Ok(())
    }
}
