//! A store that is tried: steps over disks in memory that stop, crash, and are opened again.

ghost use Rattle.std.specs.Prelude.{◌≡◌, ◌∷◌, ◌++◌, [], None, Some, IfOk, OnOk};
ghost use Rattle.ds_store.specs.Kept.{log_says};
ghost use Rattle.store_trial.specs.Trials.{TriesStore};
ghost use Rattle.store_trial.specs.Stages.{AcksBy, DoesCall, HasStepped, OpensTrial, StopsCall};

use crate::steady::SteadyDisk;
use crate::steps::{StoreStep, TryEnd, TryFault};
use ds_files::Answer3;
use ds_store::{KeptServer, OpenCause, StoreFault};
use ff_xdr::NoMemory;
use nfs3_wire::Call3;
use rpc_record::AuthSys;
use std::alloc::Global;
use std::marker::Model;
use std::vec::Vec;
use store_disk::MemoryDisk;

/// The last choice of what a crash leaves.
const LAST_CHOICE: u32 = 3;

/// A data server whose log two disks in memory hold.
#[derive(Drop)]
struct Trial {
    alloc: Global,
    number: u32,
    server: KeptServer,
    disk: SteadyDisk,
    spare: SteadyDisk,
}

impl Model for Trial {
    ghost use Rattle.std.specs.Prelude.{◌≡◌, None, Some};
    ghost use Rattle.ds_store.specs.Kept.{IsLogOf};
    ghost use Rattle.store_trial.specs.Stages.{TrialState};

    ghost Value = { TrialState };

    ghost view = { λ t. record { number = t.number; server = t.server.server; disk = t.disk; spare = t.spare } };

    ghost invariant = { λ t. (t.server.spent ≡ None) × (t.server.server.number ≡ t.number) × IsLogOf t.server.server t.server.log (Some t.disk.life) (Some t.spare.life) };
}

impl Trial {
    /// Opens the log of two disks.
    fn open(
        alloc: Global,
        number: u32,
        mut disk: SteadyDisk,
        mut spare: SteadyDisk,
    ) -> Result<Trial, TryFault>
        ensures { OpensTrial number (log_says number disk.life.now.seen spare.life.now.seen) result }
    {
        match KeptServer::open(alloc, number, &mut disk, &mut spare) {
            Ok(server) => Ok(Trial {
                alloc,
                number,
                server,
                disk,
                spare,
            }),
            Err(OpenCause::BadLog(place)) => Err(TryFault::BadLog { place }),
            Err(OpenCause::BootsSpent) => Err(TryFault::BootsSpent),
            Err(OpenCause::Disk) => Err(TryFault::NoMemory),
            Err(OpenCause::NoMemory) => Err(TryFault::NoMemory),
        }
    }
}

/// Whether a call was answered whose disks may have stopped.
fn is_acked(done: Result<Answer3, StoreFault>) -> Result<bool, NoMemory>
    ensures { IfOk result (λ acked. AcksBy done acked) }
{
    match done {
        Ok(_) => Ok(true),
        Err(StoreFault::NoMemory) => Err(NoMemory),
        Err(_) => Ok(false),
    }
}

impl Trial {
    /// Does a call by a credential.
    fn call(self, call: &Call3<'_>, cred: &AuthSys<'_>) -> Result<(Trial, bool), TryFault>
        ensures { DoesCall self call.now cred.now result }
    {
        let Trial {
            alloc,
            number,
            mut server,
            mut disk,
            mut spare,
        } = self;
        match server.apply(&mut disk, &mut spare, call, cred) {
            Ok(_) => Ok((
                Trial {
                    alloc,
                    number,
                    server,
                    disk,
                    spare,
                },
                true,
            )),
            Err(_) => Err(TryFault::NoMemory),
        }
    }

    /// Does a call whose disks stop behind so many calls and crash by a choice; opens their log again.
    fn stopped(
        self,
        call: &Call3<'_>,
        cred: &AuthSys<'_>,
        after: u64,
        choice: u32,
    ) -> Result<(Trial, bool), TryFault>
        ensures { StopsCall self call.now cred.now after choice result }
    {
        let mut server = self.server;
        let mut disk = self.disk.into_disk();
        let mut spare = self.spare.into_disk();
        disk.stop_after(after);
        spare.stop_after(after);
        let acked = is_acked(server.apply(&mut disk, &mut spare, call, cred))?;
        let choice = choice.min(LAST_CHOICE);
        let disk = SteadyDisk::new(disk.crash(choice)?);
        let spare = SteadyDisk::new(spare.crash(choice)?);
        match Trial::open(self.alloc, self.number, disk, spare) {
            Ok(again) => Ok((again, acked)),
            Err(fault) => Err(fault),
        }
    }

    /// Makes a step: whether it was answered.
    fn step(self, step: &StoreStep<'_>) -> Result<(Trial, bool), TryFault>
        ensures { HasStepped self step.now result }
    {
        match step {
            StoreStep::Call { call, cred } => self.call(call, cred),
            StoreStep::Stopped {
                call,
                cred,
                after,
                choice,
            } => self.stopped(call, cred, *after, *choice),
        }
    }
}

/// Notes whether a step was answered.
fn note(acked: &mut Vec<bool>, flag: bool) -> Result<(), NoMemory>
    ensures { OnOk result (acked.new.items ≡ acked.old.items ++ flag ∷ []) }
{
    acked.push(flag)?;
    Ok(())
}

/// Makes steps of a store, the data server with this number on a disk and a spare. Its clause says what lasts behind them, by
/// the rule of each call and of a restart alone. Behind an error what was handed in is dropped: `BadLog` is said of the log that
/// was given, and only where it is bad; `BootsSpent` where an opening met boot 4,294,967,295.
pub fn try_store(
    alloc: Global,
    number: u32,
    disk: MemoryDisk,
    spare: MemoryDisk,
    steps: &[StoreStep<'_>],
) -> Result<TryEnd, TryFault>
    requires disk { (disk.failing ≡ []) × (disk.stop ≡ None) }
    requires spare { (spare.failing ≡ []) × (spare.stop ≡ None) }
    ensures { TriesStore number (log_says number disk.life.now.seen spare.life.now.seen) steps.now result }
{
    let mut trial = Trial::open(alloc, number, SteadyDisk::new(disk), SteadyDisk::new(spare))?;
    let mut acked = Vec::new(alloc);
    for step in steps {
        match trial.step(step) {
            Ok((next, flag)) => {
                if note(&mut acked, flag).is_err() {
                    return Err(TryFault::NoMemory);
                }
                trial = next;
            }
            Err(fault) => return Err(fault),
        }
    }
    Ok(TryEnd {
        disk: trial.disk.into_disk(),
        spare: trial.spare.into_disk(),
        acked,
    })
}
