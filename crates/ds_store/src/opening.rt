//! Opening a log.

ghost use Rattle.std.specs.Prelude.{◌≡◌, ◌<◌, [], None, Some, Ok, Err, IfOk};
ghost use Rattle.cluster_model.specs.Server.{ServerState, restart_of};
ghost use Rattle.ds_log.specs.Steady.{IsSteady};
ghost use Rattle.twin_log.specs.LogCalls.{CountsTwins, TellAsBefore};
ghost use Rattle.ds_store.specs.declared.fault.OpenCause.TheVariants as causes;
ghost use Rattle.ds_store.specs.Kept.{LeavesBoth, LogsStep};
ghost use Rattle.ds_store.specs.Opens.{LeavesOpened, LeavesRefused, OpensLog, SaysBooting, StandsOpened, plain_open};
ghost use Rattle.ds_store.specs.Reading.{BeginsBoot, HasLasting, ReadsLog, SaysBoot, is_of_none};

use crate::fault::OpenCause;
use crate::kept::KeptServer;
use crate::renewing::renew;
use ds_files::DataServer;
use ds_log::{LogBody, Replayed};
use ff_xdr::{NoMemory, Out, Wire};
use gate_log::Gated;
use rpc_record::Failed;
use std::alloc::Global;
use store_disk::Disk;
use twin_log::KeptLog;

/// The last boot number.
const LAST_BOOT: u32 = u32::MAX;

/// The bytes that a record has before its body.
const HEAD: [u8; 5] = [0; 5];

/// Reads the log of the data server with a number, from its first body to its end.
fn read_log<D: Disk>(
    alloc: Global,
    number: u32,
    log: &mut KeptLog,
    disk: &mut D,
    spare: &mut D,
) -> Result<Replayed, OpenCause>
    ensures reads { ReadsLog number log.old (D.told disk.old) (D.told spare.old) result log.new }
    ensures same { D.told disk.new ≡ D.told disk.old }
    ensures same_spare { D.told spare.new ≡ D.told spare.old }
    ensures faults { CountsTwins (plain_open result) (D.faults disk.old) (D.faults spare.old) (D.faults disk.new) (D.faults spare.new) }
{
    let mut said = Replayed::new(alloc, number);
    if log.generation().is_none() {
        return Ok(said);
    }
    let mut body = Vec::new(alloc);
    loop {
        if !log.read(disk, spare, &mut body)? {
            return Ok(said);
        }
        if !said.apply(&body)? {
            return Err(OpenCause::BadLog(log.place()));
        }
    }
}

/// The record of a boot.
fn boot_record(alloc: Global, boot: u32) -> Result<Gated, NoMemory>
    ensures { IfOk result (λ body. SaysBoot boot body) }
{
    let mut out = Out::new(alloc);
    out.raw(&HEAD)?;
    LogBody::Boot(boot).put(&mut out)?;
    Gated::framed(out)
}

/// The files have no generation yet: they are new, or the log is one of a single file.
fn is_of_none(log: &KeptLog) -> bool
    ensures { result ≡ is_of_none log.now.generation }
{
    match log.generation() {
        None => true,
        Some(generation) => generation == 0,
    }
}

/// Logs the next boot: by its record, or by a renewal where the log has no generation.
fn log_boot<D: Disk>(
    alloc: Global,
    server: &DataServer,
    log: &mut KeptLog,
    disk: &mut D,
    spare: &mut D,
) -> Result<(), Failed>
    requires steady { IsSteady server.now }
    requires booted { 0 < server.now.clock.boot }
    ensures logs { (said : ServerState) → HasLasting said log.old (D.told disk.old) (D.told spare.old) → restart_of said [] ≡ Some server.now → LogsStep said server.now (D.told disk.old) (D.told spare.old) result log.new (D.told disk.new) (D.told spare.new) }
    ensures tells { TellAsBefore (D.told disk.old) (D.told spare.old) (D.told disk.new) (D.told spare.new) }
    ensures faults { CountsTwins result (D.faults disk.old) (D.faults spare.old) (D.faults disk.new) (D.faults spare.new) }
{
    if is_of_none(log) {
        return renew(alloc, server, log, disk, spare);
    }
    let Ok(record) = boot_record(alloc, server.clock().boot) else {
        return Err(Failed::NoMemory);
    };
    log.append(disk, spare, &record)
}

/// Begins the next boot of the server that a log said.
fn begin_boot<D: Disk>(
    alloc: Global,
    said: Replayed,
    mut log: KeptLog,
    disk: &mut D,
    spare: &mut D,
) -> Result<KeptServer, OpenCause>
    ensures begins { BeginsBoot said result }
    ensures fresh { IfOk result (λ k. k.spent ≡ None) }
    ensures crash { HasLasting said log (D.told disk.old) (D.told spare.old) → LeavesBoth (D.told disk.old) (D.told spare.old) (D.told disk.new) (D.told spare.new) (SaysBooting said.number (Ok said)) }
    ensures spent { result ≡ Err causes.BootsSpent → D.told disk.new ≡ D.told disk.old }
    ensures spent_spare { result ≡ Err causes.BootsSpent → D.told spare.new ≡ D.told spare.old }
    ensures stands { HasLasting said log (D.told disk.old) (D.told spare.old) → StandsOpened result (D.told disk.new) (D.told spare.new) }
    ensures tells { TellAsBefore (D.told disk.old) (D.told spare.old) (D.told disk.new) (D.told spare.new) }
    ensures faults { CountsTwins (plain_open result) (D.faults disk.old) (D.faults spare.old) (D.faults disk.new) (D.faults spare.new) }
{
    if said.boot() == LAST_BOOT {
        return Err(OpenCause::BootsSpent);
    }
    let server = said.start();
    log_boot(alloc, &server, &mut log, disk, spare)?;
    Ok(KeptServer::new(alloc, server, log))
}

impl KeptServer {
    /// Opens the log on two disks as the data server with a number: it is the one that the log says, in its next boot, which
    /// is in the log then. Begins with a sync of each. Where the log has no generation it is renewed: that of one file into the
    /// other, and one of two new files into the disk.
    ///
    /// After `OpenCause::Disk`, and where a disk or a renewal wanted memory, the log may have the next boot; opening again is
    /// lawful. After `BadLog` and `BootsSpent` both disks have their bytes, all of them synced.
    pub fn open<D: Disk>(
        alloc: Global,
        number: u32,
        disk: &mut D,
        spare: &mut D,
    ) -> Result<KeptServer, OpenCause>
        ensures opened { OpensLog number (D.told disk.old) (D.told spare.old) result }
        ensures fresh { IfOk result (λ k. k.spent ≡ None) }
        ensures crash { LeavesOpened number (D.told disk.old) (D.told spare.old) (D.told disk.new) (D.told spare.new) }
        ensures refused { LeavesRefused (D.told disk.old) (D.told spare.old) result (D.told disk.new) (D.told spare.new) }
        ensures stands { StandsOpened result (D.told disk.new) (D.told spare.new) }
        ensures faults { CountsTwins (plain_open result) (D.faults disk.old) (D.faults spare.old) (D.faults disk.new) (D.faults spare.new) }
    {
        let mut log = KeptLog::open(alloc, disk, spare)?;
        let said = read_log(alloc, number, &mut log, disk, spare)?;
        begin_boot(alloc, said, log, disk, spare)
    }
}
