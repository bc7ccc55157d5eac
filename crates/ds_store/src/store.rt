//! A store: a data server together with the two disks that have its log.

ghost use Rattle.std.specs.Prelude.{◌≡◌, IfOk};
ghost use Rattle.twin_log.specs.LogCalls.{CountsTwins};
ghost use Rattle.rpc_record.specs.Rpc.{plain_credential};
ghost use Rattle.nfs3_wire.specs.Calls.{plain_call};
ghost use Rattle.ds_procedures.specs.Answer.{answer_of};
ghost use Rattle.ds_procedures.specs.Steps.{step_of};
ghost use Rattle.ds_files.specs.Receive.{outcome_of};
ghost use Rattle.ds_files.specs.declared.logging.Logging.TheVariants.{On};
ghost use Rattle.ds_store.specs.Renewals.{IsLogBounded};
ghost use Rattle.ds_store.specs.Kept.{Posts, StandsOnDisks, StepsSafely, plain_fault};
ghost use Rattle.ds_store.specs.Stores.{OpensStore, standing};

use crate::fault::{OpenCause, StoreFault};
use crate::kept::KeptServer;
use cluster_model::{NodeId, Outbox};
use ds_files::{Answer3, DataServer};
use nfs3_wire::Call3;
use rpc_record::AuthSys;
use std::alloc::Global;
use std::marker::Model;
use store_disk::Disk;

/// Why a store could not be opened; the disks are given back.
#[derive(Drop)]
pub enum OpenFault<D> {
    /// A disk failed. The log may have the next boot number.
    Disk(D, D),
    /// The log is bad at this byte of the file that has it; at 0 too where both files have the same generation.
    BadLog { disk: D, spare: D, place: u64 },
    /// The boot number is the last that there is.
    BootsSpent(D, D),
    /// Memory was wanted.
    NoMemory(D, D),
}

/// A server and its disks, which one call borrows all.
#[derive(Drop)]
struct Parts<D> {
    server: KeptServer,
    disk: D,
    spare: D,
}

/// A data server together with the two disks that have its log.
#[derive(Drop)]
pub struct Store<D: Disk> {
    parts: Parts<D>,
}

impl<D: Disk> Model for Store<D> {
    ghost use Rattle.ds_store.specs.Kept.{StandsOnDisks};
    ghost use Rattle.ds_store.specs.Stores.{StoreState};

    ghost Value = { StoreState };

    ghost view = { λ s. record {
      kept = s.parts.server;
      disk = D.told s.parts.disk;
      spare = D.told s.parts.spare;
      disk_faults = D.faults s.parts.disk;
      spare_faults = D.faults s.parts.spare;
    } };

    ghost invariant = { λ s. StandsOnDisks s.parts.server (D.told s.parts.disk) (D.told s.parts.spare) };
}

/// Does a call by a credential.
fn apply_to<D: Disk>(
    parts: &mut Parts<D>,
    call: &Call3<'_>,
    cred: &AuthSys<'_>,
) -> Result<Answer3, StoreFault>
    requires { StandsOnDisks parts.old.server (D.told parts.old.disk) (D.told parts.old.spare) }
    ensures answer { IfOk result (λ answer. answer ≡ answer_of (step_of parts.old.server.server (plain_call call.now) (plain_credential cred.now))) }
    ensures steps { StepsSafely parts.old.server.spent (step_of parts.old.server.server (plain_call call.now) (plain_credential cred.now)).server parts.old.server (D.told parts.old.disk) (D.told parts.old.spare) result parts.new.server (D.told parts.new.disk) (D.told parts.new.spare) }
    ensures stands { StandsOnDisks parts.new.server (D.told parts.new.disk) (D.told parts.new.spare) }
    ensures bounded { IsLogBounded parts.old.server.server parts.old.server.log result parts.new.server.server parts.new.server.log (D.told parts.new.disk) (D.told parts.new.spare) }
    ensures faults { CountsTwins (plain_fault result) (D.faults parts.old.disk) (D.faults parts.old.spare) (D.faults parts.new.disk) (D.faults parts.new.spare) }
{
    parts
        .server
        .apply(&mut parts.disk, &mut parts.spare, call, cred)
}

/// Takes a record from a node.
fn take_record<D: Disk>(
    parts: &mut Parts<D>,
    from: NodeId,
    message: &[u8],
    out: &mut Outbox,
) -> Result<(), StoreFault>
    requires { StandsOnDisks parts.old.server (D.told parts.old.disk) (D.told parts.old.spare) }
    ensures posts { Posts On (outcome_of parts.old.server.server message.now) from result out.old out.new }
    ensures steps { StepsSafely parts.old.server.spent (outcome_of parts.old.server.server message.now).server parts.old.server (D.told parts.old.disk) (D.told parts.old.spare) result parts.new.server (D.told parts.new.disk) (D.told parts.new.spare) }
    ensures stands { StandsOnDisks parts.new.server (D.told parts.new.disk) (D.told parts.new.spare) }
    ensures bounded { IsLogBounded parts.old.server.server parts.old.server.log result parts.new.server.server parts.new.server.log (D.told parts.new.disk) (D.told parts.new.spare) }
    ensures faults { CountsTwins (plain_fault result) (D.faults parts.old.disk) (D.faults parts.old.spare) (D.faults parts.new.disk) (D.faults parts.new.spare) }
{
    parts
        .server
        .on_record(&mut parts.disk, &mut parts.spare, from, message, out)
}

impl<D: Disk + Drop> Store<D> {
    /// Opens the log on two disks as the data server with a number: it is the one that the log says, in its next boot.
    pub fn open(
        alloc: Global,
        number: u32,
        mut disk: D,
        mut spare: D,
    ) -> Result<Store<D>, OpenFault<D>>
        ensures { OpensStore (standing D.told D.faults) number (standing D.told D.faults disk) (standing D.told D.faults spare) result }
    {
        match KeptServer::open(alloc, number, &mut disk, &mut spare) {
            Ok(server) => Ok(Store {
                parts: Parts {
                    server,
                    disk,
                    spare,
                },
            }),
            Err(OpenCause::Disk) => Err(OpenFault::Disk(disk, spare)),
            Err(OpenCause::BadLog(place)) => Err(OpenFault::BadLog { disk, spare, place }),
            Err(OpenCause::BootsSpent) => Err(OpenFault::BootsSpent(disk, spare)),
            Err(OpenCause::NoMemory) => Err(OpenFault::NoMemory(disk, spare)),
        }
    }

    /// The server.
    pub fn server(&self) -> &DataServer
        ensures { result.now ≡ self.now.kept.server }
    {
        self.parts.server.server()
    }

    /// The disk.
    pub fn disk(&self) -> &D
        ensures told { D.told result.now ≡ self.now.disk }
        ensures faults { D.faults result.now ≡ self.now.disk_faults }
    {
        &self.parts.disk
    }

    /// The spare.
    pub fn spare(&self) -> &D
        ensures told { D.told result.now ≡ self.now.spare }
        ensures faults { D.faults result.now ≡ self.now.spare_faults }
    {
        &self.parts.spare
    }

    /// Does a call by a credential, as `KeptServer::apply` does.
    pub fn apply(&mut self, call: &Call3<'_>, cred: &AuthSys<'_>) -> Result<Answer3, StoreFault>
        ensures answer { IfOk result (λ answer. answer ≡ answer_of (step_of self.old.kept.server (plain_call call.now) (plain_credential cred.now))) }
        ensures steps { StepsSafely self.old.kept.spent (step_of self.old.kept.server (plain_call call.now) (plain_credential cred.now)).server self.old.kept self.old.disk self.old.spare result self.new.kept self.new.disk self.new.spare }
        ensures bounded { IsLogBounded self.old.kept.server self.old.kept.log result self.new.kept.server self.new.kept.log self.new.disk self.new.spare }
        ensures faults { CountsTwins (plain_fault result) self.old.disk_faults self.old.spare_faults self.new.disk_faults self.new.spare_faults }
    {
        apply_to(&mut self.parts, call, cred)
    }

    /// Takes a record from a node, as `KeptServer::on_record` does.
    pub fn on_record(
        &mut self,
        from: NodeId,
        message: &[u8],
        out: &mut Outbox,
    ) -> Result<(), StoreFault>
        ensures posts { Posts On (outcome_of self.old.kept.server message.now) from result out.old out.new }
        ensures steps { StepsSafely self.old.kept.spent (outcome_of self.old.kept.server message.now).server self.old.kept self.old.disk self.old.spare result self.new.kept self.new.disk self.new.spare }
        ensures bounded { IsLogBounded self.old.kept.server self.old.kept.log result self.new.kept.server self.new.kept.log self.new.disk self.new.spare }
        ensures faults { CountsTwins (plain_fault result) self.old.disk_faults self.old.spare_faults self.new.disk_faults self.new.spare_faults }
    {
        take_record(&mut self.parts, from, message, out)
    }

    /// The disk and the spare, as they are.
    pub fn close(self) -> (D, D)
        ensures told { (D.told result.0 ≡ self.disk) × (D.told result.1 ≡ self.spare) }
        ensures faults { (D.faults result.0 ≡ self.disk_faults) × (D.faults result.1 ≡ self.spare_faults) }
    {
        (self.parts.disk, self.parts.spare)
    }
}
