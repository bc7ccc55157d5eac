//! OPEN (RFC 8881, section 18.16).

ghost use Rattle.std.specs.Prelude.{◌≡◌, true, None, is_none, OnOk};
ghost use Rattle.cluster_model.specs.declared.outbox.Outbox.{Outbox};
ghost use Rattle.nfs4_file_ops.specs.Open.{open4_args_value};
ghost use Rattle.nfs4_file_ops.specs.OpenHow.{openflag4_value};
ghost use Rattle.mds_rule.specs.MdsStates.{file_named};
ghost use Rattle.mds_rule.specs.FileOps.{client_of, with_new_file, may_make, can_open, creation_in, open_result, opens_file, opens_or_makes, open_named, runs_open};
ghost use Rattle.mds_rule.specs.OpSteps.{with_result};
ghost use Rattle.open_state.specs.Opens.{open_fault};
ghost use Rattle.compound_run.specs.CompoundRuns.{HasRoomForResults, HasOperated, AddsResult, OnGoes};

use crate::asked::{client_of, uids_left};
use cluster_model::{Cred, FileId, SPARE_UIDS};
use compound_run::{OpEnd, Run};
use ff_xdr::{Items, NoMemory};
use mds_file::MdsFile;
use mds_refusals::{Creation, Object, OpenFound, OpenStep, try_open};
use mds_state::{State, can_draw};
use nfs4_compound::OpRes;
use nfs4_compound::nfs4_file_ops::{CreateHow4, OpenArgs, OpenHow, OpenOk};
use nfs4_types::{ArmZero, Bitmap, OpResult};
use open_state::{Open, OpenFault};
use served_files::MAX_FILES;

/// Whether an OPEN makes its file.
fn creation_in(how: &OpenHow<'_>) -> Creation
    ensures { result ≡ creation_in (openflag4_value how.now) }
{
    match how {
        OpenHow::NoCreate => Creation::NoCreate,
        OpenHow::Create(CreateHow4::Unchecked(_)) => Creation::Unchecked,
        OpenHow::Create(CreateHow4::Guarded(_)) => Creation::Guarded,
    }
}

/// One file more can be made.
fn may_make(state: &State) -> bool
    ensures { result ≡ may_make state.now }
{
    (state.files.len() as usize) < MAX_FILES
        && uids_left(state) >= SPARE_UIDS
        && can_draw(state.fresh)
}

/// The client has the file open, or can have one file more open.
fn can_open(state: &State, client: u64, found: Option<FileId>) -> bool
    ensures { result ≡ can_open state.now client found }
{
    match found {
        Some(file) => state.opens.can_open(client, file),
        None => state.opens.has_room(client),
    }
}

/// A file of this name is made. Takes memory.
fn make(state: &mut State, name: &[u8]) -> Result<(), NoMemory>
    requires may { may_make state.old ≡ true }
    requires absent { file_named state.old name.now ≡ None }
    ensures { OnOk result (state.new ≡ with_new_file state.old name.now) }
{
    let number = state.files.len() + 1;
    let servers = state.servers.of_file(number);
    let mut fresh = state.fresh;
    let file = MdsFile::new(state.alloc, Cred(fresh.uid), fresh.name, servers.as_slice());
    state.files.add(name, file)?;
    fresh.uid += 1;
    fresh.name += 1;
    state.fresh = fresh;
    Ok(())
}

/// The result of an OPEN.
fn give_open(run: &mut Run<'_>, given: Open) -> Result<OpEnd, NoMemory>
    requires { HasRoomForResults run.old }
    ensures run { OnGoes result (run.new ≡ with_result run.old (open_result given)) }
    ensures on { AddsResult run.old result run.new }
{
    run.give(&OpRes::Open(OpResult::Done(OpenOk {
        stateid: given.stateid(),
        atomic: true,
        before: 0,
        after: 0,
        rflags: 0,
        attrset: Bitmap {
            words: Items::made(&[]),
        },
        delegation: ArmZero { body: () },
    })))
}

/// The client has the file open, and it becomes the current object. Takes memory.
fn open_file(
    state: &mut State,
    run: &mut Run<'_>,
    client: u64,
    file: FileId,
) -> Result<OpEnd, NoMemory>
    requires room { HasRoomForResults run.old }
    requires whose { client ≡ client_of run.old }
    requires can { is_none (open_fault state.old.opens client file) ≡ true }
    ensures op { (out : Outbox) → HasOperated (opens_file state.old run.old file) out result state.new run.new out }
    ensures on { AddsResult run.old result run.new }
{
    let given = match state.opens.open(client, file) {
        Ok(open) => open,
        Err(OpenFault::NoMemory(e)) => return Err(e),
        // it was looked at before
        Err(OpenFault::TooMany | OpenFault::Spent) => unreachable!(),
    };
    run.go_to(Object::File(file));
    give_open(run, given)
}

/// The file of this name is opened, and made first where it has to be. Takes memory.
fn open_named(
    state: &mut State,
    run: &mut Run<'_>,
    access: u32,
    creation: Creation,
    name: &[u8],
) -> Result<OpEnd, NoMemory>
    requires { HasRoomForResults run.old }
    ensures op { (out : Outbox) → HasOperated (open_named state.old run.old access creation name.now (file_named state.old name.now)) out result state.new run.new out }
    ensures on { AddsResult run.old result run.new }
{
    let client = client_of(run);
    let file = state.files.named(name);
    let found = OpenFound {
        file,
        can_open: can_open(state, client, file),
        can_make: may_make(state),
    };
    match try_open(run.so_far.current, name, access, creation, found) {
        Ok(OpenStep::Opens(file)) => open_file(state, run, client, file),
        Ok(OpenStep::Makes) => {
            make(state, name)?;
            let file = FileId(state.files.len());
            open_file(state, run, client, file)
        }
        Err(status) => run.refuse(18, status),
    }
}

/// OPEN: a file is opened by its name, and made where it has to be. Takes memory.
pub fn open(state: &mut State, run: &mut Run<'_>, args: &OpenArgs<'_>) -> Result<OpEnd, NoMemory>
    requires { HasRoomForResults run.old }
    ensures op { (out : Outbox) → HasOperated (runs_open state.old run.old (open4_args_value args.now)) out result state.new run.new out }
    ensures on { AddsResult run.old result run.new }
{
    let creation = creation_in(&args.how);
    open_named(
        state,
        run,
        args.share_access,
        creation,
        args.claim.body.bytes,
    )
}
