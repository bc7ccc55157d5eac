//! PUTFH, PUTROOTFH, GETFH and LOOKUP: the current filehandle (RFC 8881, sections 18.8, 18.13, 18.19 and 18.21).

ghost use Rattle.std.specs.Prelude.{◌≡◌, []};
ghost use Rattle.cluster_model.specs.declared.outbox.Outbox.{Outbox};
ghost use Rattle.mds_rule.specs.FileOps.{object_handle, runs_put_fh, runs_put_root_fh, runs_get_fh, runs_lookup};
ghost use Rattle.compound_run.specs.CompoundRuns.{HasRoomForResults, HasOperated, AddsResult};

use compound_run::{OpEnd, Run};
use ff_xdr::NoMemory;
use mds_refusals::{Object, current_object, try_lookup, try_put_fh};
use mds_state::State;
use nfs4_compound::OpRes;
use nfs4_types::{Handle4, OpResult, file_handle};

/// The handle of an object.
fn object_handle(object: Object) -> [u8; 8]
    ensures { result ≡ object_handle object }
{
    match object {
        Object::Root => file_handle(0),
        Object::File(file) => file_handle(u64::from(file.0)),
    }
}

/// PUTFH: the object of this handle becomes the current one. Takes memory.
pub fn put_fh(state: &State, run: &mut Run<'_>, handle: &[u8]) -> Result<OpEnd, NoMemory>
    requires { HasRoomForResults run.old }
    ensures op { (out : Outbox) → HasOperated (runs_put_fh state.now run.old handle.now) out result state.now run.new out }
    ensures on { AddsResult run.old result run.new }
{
    match try_put_fh(handle, state.files.len()) {
        Ok(object) => {
            run.go_to(object);
            run.give(&OpRes::PutFh(OpResult::Done(())))
        }
        Err(status) => run.refuse(22, status),
    }
}

/// PUTROOTFH: the root becomes the current object. Takes memory.
pub fn put_root_fh(state: &State, run: &mut Run<'_>) -> Result<OpEnd, NoMemory>
    requires { HasRoomForResults run.old }
    ensures op { (out : Outbox) → HasOperated (runs_put_root_fh state.now run.old) out result state.now run.new out }
    ensures on { AddsResult run.old result run.new }
{
    run.go_to(Object::Root);
    run.give(&OpRes::PutRootFh(OpResult::Done(())))
}

/// GETFH: the handle of the current object. Takes memory.
pub fn get_fh(state: &State, run: &mut Run<'_>) -> Result<OpEnd, NoMemory>
    requires { HasRoomForResults run.old }
    ensures op { (out : Outbox) → HasOperated (runs_get_fh state.now run.old) out result state.now run.new out }
    ensures on { AddsResult run.old result run.new }
{
    match current_object(run.so_far.current) {
        Ok(object) => {
            let bytes = object_handle(object);
            run.give(&OpRes::GetFh(OpResult::Done(Handle4 { bytes: &bytes })))
        }
        Err(status) => run.refuse(10, status),
    }
}

/// LOOKUP: the file of this name becomes the current object. Takes memory.
pub fn lookup(state: &State, run: &mut Run<'_>, name: &[u8]) -> Result<OpEnd, NoMemory>
    requires { HasRoomForResults run.old }
    ensures op { (out : Outbox) → HasOperated (runs_lookup state.now run.old name.now) out result state.now run.new out }
    ensures on { AddsResult run.old result run.new }
{
    let found = state.files.named(name);
    match try_lookup(run.so_far.current, name, found) {
        Ok(file) => {
            run.go_to(Object::File(file));
            run.give(&OpRes::Lookup(OpResult::Done(())))
        }
        Err(status) => run.refuse(15, status),
    }
}
