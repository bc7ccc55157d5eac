//! A layout is granted, and given to who asks for it.

ghost use Rattle.std.specs.Prelude.{◌≡◌, ◌<◌, ◌^◌, ◌∷◌, [], length};
ghost use Rattle.ff_xdr.specs.Arms.{arm};
ghost use Rattle.cluster_model.specs.declared.outbox.Outbox.{Outbox};
ghost use Rattle.nfs4_compound.specs.Results.{resop4};
ghost use Rattle.granted_layouts.specs.GrantedBodies.{layout_body, whole_layout, layout_result};
ghost use Rattle.mds_rule.specs.MdsStates.{MdsStep, confirmed_node, served};
ghost use Rattle.mds_rule.specs.OpSteps.{with_result};
ghost use Rattle.mds_rule.specs.FileOps.{client_of};
ghost use Rattle.mds_rule.specs.LayoutOps.{is_granted, granted_in, grants_to};
ghost use Rattle.compound_run.specs.CompoundRuns.{HasRoomForResults, HasEntered, HasOperated, AddsResult, OnGoes};

use cluster_model::{FileId, NodeId, Outbox};
use compound_run::{OpEnd, Run};
use ff_xdr::NoMemory;
use granted_layouts::{layout_body, layout_result, whole_layout};
use layout_state::FileState;
use mds_file::FileInput;
use mds_names::client_of;
use mds_state::{State, confirmed_node, take_input};
use nfs4_compound::OpRes;
use nfs4_types::{Stat4, Stateid, layout_stateid};
use std::alloc::Global;

/// The result with the layout of this file's mirrors, under this stateid. Takes memory.
fn give_layout(
    alloc: Global,
    run: &mut Run<'_>,
    stateid: Stateid,
    layout: FileState,
) -> Result<OpEnd, NoMemory>
    requires { HasRoomForResults run.old }
    ensures run { OnGoes result (run.new ≡ with_result run.old (arm 50 resop4 (layout_result stateid (whole_layout (layout_body layout.cred.0 layout.live) ∷ [])))) }
    ensures on { AddsResult run.old result run.new }
{
    let body = layout_body(alloc, layout.cred(), layout.live())?;
    let layouts = [whole_layout(body.bytes())];
    run.give(&OpRes::LayoutGet(layout_result(stateid, &layouts)))
}

/// The layout of a file that is granted is given to the client that asks, for the first time or again. Takes memory.
fn give_granted(
    state: &mut State,
    run: &mut Run<'_>,
    file: FileId,
    again: bool,
) -> Result<OpEnd, NoMemory>
    requires { HasRoomForResults run.old }
    ensures op { (step : MdsStep) (old out : Outbox) → HasEntered step.mds step.entries old state.old out → HasOperated (granted_in step run.old file again (served step.mds file)) old result state.new run.new out }
    ensures on { AddsResult run.old result run.new }
{
    state.files.hand_to(file, client_of(run), again)?;
    let Some(served) = state.files.get(file) else {
        return run.refuse(50, Stat4::LayoutUnavailable);
    };
    let layout = served.state();
    let stateid = layout_stateid(file.0, layout.cred().0, served.seqid);
    give_layout(state.alloc, run, stateid, layout)
}

/// The layout of a file is granted already.
fn is_granted(state: &State, file: FileId) -> bool
    ensures { result ≡ is_granted (served state.now file) }
{
    match state.files.get(file) {
        Some(served) => served.state().holder().is_some(),
        None => false,
    }
}

/// A file is granted to the client that asks, by the node from which its id was confirmed; where it is granted already its layout is given again. Takes memory.
pub fn grant(
    state: &mut State,
    run: &mut Run<'_>,
    file: FileId,
    out: &mut Outbox,
) -> Result<OpEnd, NoMemory>
    requires { HasRoomForResults run.old }
    ensures op { HasOperated (grants_to state.old run.old file (is_granted (served state.old file)) (confirmed_node state.old (client_of run.old))) out.old result state.new run.new out.new }
    ensures on { AddsResult run.old result run.new }
{
    if is_granted(state, file) {
        return give_granted(state, run, file, true);
    }
    let Some(NodeId::Client(client)) = confirmed_node(state, client_of(run)) else {
        return run.refuse(50, Stat4::LayoutUnavailable);
    };
    take_input(state, file, FileInput::AsksLayout { client }, out)?;
    give_granted(state, run, file, false)
}
