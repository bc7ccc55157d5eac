//! Renewing the log of a data server.

ghost use Rattle.std.specs.Prelude.{◌≡◌, ◌≢◌, ◌<◌, ◌-◌, ◌^◌, min, [], None, OnOk, IfSome};
ghost use Rattle.twin_log.specs.Twins.{TwinLog};
ghost use Rattle.twin_log.specs.KeptLogs.{RenewsTwin, StandsTwin};
ghost use Rattle.twin_log.specs.LogCalls.{CountsTwins, HasRenewed, TellAsBefore};
ghost use Rattle.ds_log.specs.Steady.{IsSteady};
ghost use Rattle.ds_store.specs.Renewals.{PutsAll, Renews, log_limit};

use ds_files::DataServer;
use ds_snapshot::{Snapshot, snapshot_size};
use rpc_record::Failed;
use std::alloc::Global;
use store_disk::Disk;
use twin_log::KeptLog;

/// How many bytes a log may have beside twice those of its snapshot.
const SLACK: u64 = 16_777_216;

/// The generation's record and the last gate byte, which a new log has beside its snapshot.
const REST: u64 = 18;

/// How many bytes the server's log may have before it is renewed; the most that there is where they are more. Goes once over all
/// files.
pub(crate) fn log_limit(server: &DataServer) -> u64
    ensures { result ≡ min (log_limit server.now) (2 ^ 64 - 1) }
{
    snapshot_size(server)
        .saturating_add(REST)
        .saturating_mul(2)
        .saturating_add(SLACK)
}

/// Puts the bodies of the server's snapshot into the log that is being made.
fn put_snapshot<D: Disk>(
    alloc: Global,
    server: &DataServer,
    log: &mut KeptLog,
    disk: &mut D,
    spare: &mut D,
) -> Result<(), Failed>
    requires steady { IsSteady server.now }
    requires renews { log.old.renewed ≢ None }
    ensures puts { (says : TwinLog) → RenewsTwin log.old says [] (D.told disk.old) (D.told spare.old) → PutsAll server.now log.old (D.told disk.old) (D.told spare.old) says result log.new (D.told disk.new) (D.told spare.new) }
    ensures renews { OnOk result (log.new.renewed ≢ None) }
    ensures keeps { log.new ≡ record log.old { renewed = log.new.renewed } }
    ensures tells { TellAsBefore (D.told disk.old) (D.told spare.old) (D.told disk.new) (D.told spare.new) }
    ensures faults { CountsTwins result (D.faults disk.old) (D.faults spare.old) (D.faults disk.new) (D.faults spare.new) }
{
    let mut snapshot = Snapshot::new();
    loop {
        let Ok(next) = snapshot.next(alloc, server) else {
            return Err(Failed::NoMemory);
        };
        let Some(body) = next else {
            return Ok(());
        };
        log.put(disk, spare, &body)?;
    }
}

/// Renews the log: the snapshot of the server, whose log it is or is to be, takes its place in the other file.
///
/// Behind an error the log is to be opened anew.
pub(crate) fn renew<D: Disk>(
    alloc: Global,
    server: &DataServer,
    log: &mut KeptLog,
    disk: &mut D,
    spare: &mut D,
) -> Result<(), Failed>
    requires steady { IsSteady server.now }
    requires booted { 0 < server.now.clock.boot }
    requires room { IfSome log.old.generation (λ generation. generation < 2 ^ 64 - 1) }
    ensures renews { (says : TwinLog) → StandsTwin log.old says (D.told disk.old) (D.told spare.old) → Renews server.now log.old (D.told disk.old) (D.told spare.old) result log.new (D.told disk.new) (D.told spare.new) }
    ensures renewed { OnOk result (HasRenewed log.old log.new) }
    ensures tells { TellAsBefore (D.told disk.old) (D.told spare.old) (D.told disk.new) (D.told spare.new) }
    ensures faults { CountsTwins result (D.faults disk.old) (D.faults spare.old) (D.faults disk.new) (D.faults spare.new) }
{
    log.begin(disk, spare)?;
    put_snapshot(alloc, server, log, disk, spare)?;
    log.end(disk, spare)
}
