//! Why a file is not granted.

ghost use Rattle.std.specs.Prelude.{◌≡◌};
ghost use Rattle.cluster_model.specs.Phases.{holder_of};
ghost use Rattle.layout_state.specs.Grants.{grant_fault};
ghost use Rattle.mds_rule.specs.MdsStates.{served};
ghost use Rattle.mds_rule.specs.FileOps.{current_file};
ghost use Rattle.mds_rule.specs.LayoutOps.{holds_by, fault_of_holder, layout_fault, size_for};

use cluster_model::{FileId, NodeId};
use compound_run::Run;
use granted_layouts::layout_size;
use layout_state::{FileState, GrantFault};
use mds_names::{client_of, current_file, uids_left};
use mds_state::State;

/// Why it is not granted to a node.
fn fault_of_node(layout: FileState, node: NodeId, left: u32) -> Option<GrantFault>
    ensures { result ≡ grant_fault layout node left }
{
    let mut asked = layout;
    match asked.grant(node, left) {
        Ok(_) => None,
        Err(fault) => Some(fault),
    }
}

/// This client has the layout, which `holder` has.
fn holds_by(client: u64, holder: Option<u64>) -> bool
    ensures { result ≡ holds_by client holder }
{
    match holder {
        Some(holder) => holder == client,
        None => false,
    }
}

/// Why it is not granted to a client that calls from this node. One that has it is known by its id, whatever node it calls from.
fn fault_of_client(layout: FileState, left: u32, is_its: bool, node: NodeId) -> Option<GrantFault>
    ensures { result ≡ fault_of_holder layout left is_its (holder_of layout.phase) node }
{
    let Some(holder) = layout.holder() else {
        return fault_of_node(layout, node, left);
    };
    if is_its {
        return fault_of_node(layout, holder, left);
    }
    Some(GrantFault::Later(layout.phase()))
}

/// Why the current file is not granted to who asks, if it is not.
pub fn layout_fault(state: &State, run: &Run<'_>) -> Option<GrantFault>
    ensures { result ≡ layout_fault state.now run.now (served state.now (current_file run.now)) }
{
    match state.files.get(current_file(run)) {
        Some(served) => {
            let is_its = holds_by(client_of(run), served.holder);
            fault_of_client(served.state(), uids_left(state), is_its, run.so_far.node)
        }
        None => Some(GrantFault::Spent),
    }
}

/// How many bytes the layout of a file has; 0 where there is no such file.
pub fn size_for(state: &State, file: FileId) -> u32
    ensures { result ≡ size_for (served state.now file) }
{
    match state.files.get(file) {
        Some(served) => {
            let layout = served.state();
            layout_size(layout.cred(), layout.live().len())
        }
        None => 0,
    }
}
