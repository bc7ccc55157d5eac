//! GETDEVICEINFO (RFC 8881, section 18.40).

ghost use Rattle.std.specs.Prelude.{◌≡◌, ◌<◌, ◌^◌, length, option_map, IfOk, OnOk};
ghost use Rattle.std.proofs.Common.{inl, inr};
ghost use Rattle.ff_xdr.specs.Arms.{arm};
ghost use Rattle.cluster_model.specs.declared.outbox.Outbox.{Outbox};
ghost use Rattle.device_addr.specs.Universal.{address_value};
ghost use Rattle.granted_layouts.specs.GrantedBodies.{device_info_result};
ghost use Rattle.nfs4_types.specs.declared.status.Stat4.TheVariants.{TooSmall};
ghost use Rattle.nfs4_file_ops.specs.GetDeviceInfo.{getdeviceinfo4_args_value};
ghost use Rattle.nfs4_compound.specs.Results.{resop4};
ghost use Rattle.mds_rule.specs.LayoutOps.{device_size, runs_get_device_info};
ghost use Rattle.mds_rule.specs.OpSteps.{with_result};
ghost use Rattle.mds_layouts.specs.GivenLayouts.{address_bytes};
ghost use Rattle.compound_run.specs.declared.op_end.OpEnd.TheVariants.{Ends};
ghost use Rattle.compound_run.specs.CompoundRuns.{HasRoomForResults, HasOperated, AddsResult, OnGoes};

use compound_run::{OpEnd, Run};
use device_addr::NetAddr;
use ff_xdr::NoMemory;
use granted_layouts::{device_body, device_info_result, device_info_size};
use mds_refusals::{DeviceInfo, try_get_device_info};
use mds_state::State;
use nfs4_compound::OpRes;
use nfs4_compound::nfs4_file_ops::{GetDeviceInfoArgs, GetDeviceInfoRes};
use nfs4_types::Stat4;
use std::alloc::Global;

/// How many bytes the result has that tells this address; 0 where there is none.
fn size_of_device(found: Option<NetAddr>) -> u32
    ensures { result ≡ device_size (option_map address_value found) }
{
    match found {
        Some(address) => device_info_size(&address),
        None => 0,
    }
}

/// The result with this body. Takes memory.
fn give_body(run: &mut Run<'_>, body: &[u8]) -> Result<OpEnd, NoMemory>
    requires room { HasRoomForResults run.old }
    requires few { length body.now < 2 ^ 32 }
    ensures run { OnGoes result (run.new ≡ with_result run.old (arm 47 resop4 (device_info_result body.now))) }
    ensures on { AddsResult run.old result run.new }
{
    run.give(&OpRes::GetDeviceInfo(device_info_result(body)))
}

/// The result with this address; with no byte where there is none. Takes memory.
fn give_address(alloc: Global, run: &mut Run<'_>, found: Option<NetAddr>) -> Result<OpEnd, NoMemory>
    requires { HasRoomForResults run.old }
    ensures run { OnGoes result (run.new ≡ with_result run.old (arm 47 resop4 (device_info_result (address_bytes (option_map address_value found))))) }
    ensures on { AddsResult run.old result run.new }
{
    let Some(address) = found else {
        return give_body(run, &[]);
    };
    let body = device_body(alloc, &address)?;
    give_body(run, body.bytes())
}

/// TOOSMALL, with how many bytes would do. Takes memory.
fn refuse_few(run: &mut Run<'_>, size: u32) -> Result<OpEnd, NoMemory>
    requires { HasRoomForResults run.old }
    ensures ends { IfOk result (λ e. e ≡ Ends TooSmall) }
    ensures run { OnOk result (run.new ≡ with_result run.old (arm 47 resop4 (inr (inl size)))) }
{
    run.push(&OpRes::GetDeviceInfo(GetDeviceInfoRes::TooSmall(size)))?;
    Ok(OpEnd::Ends(Stat4::TooSmall))
}

/// GETDEVICEINFO: the address of a data server, and no byte of it where none is asked for. Takes memory.
pub fn get_device_info(
    state: &State,
    run: &mut Run<'_>,
    args: &GetDeviceInfoArgs<'_>,
) -> Result<OpEnd, NoMemory>
    requires { HasRoomForResults run.old }
    ensures op { (out : Outbox) → HasOperated (runs_get_device_info state.now run.old (getdeviceinfo4_args_value args.now)) out result state.now run.new out }
    ensures on { AddsResult run.old result run.new }
{
    let found = state.servers.find(args.device);
    let size = size_of_device(found);
    match try_get_device_info(args.layout_type, found.is_some(), args.maxcount, size) {
        Ok(DeviceInfo::Address) => give_address(state.alloc, run, found),
        Ok(DeviceInfo::Empty) => give_body(run, &[]),
        Err(Stat4::TooSmall) => refuse_few(run, size),
        Err(status) => run.refuse(47, status),
    }
}
