//! Clients that are confirmed, and clients that are gone.

ghost use Rattle.std.specs.Prelude.{◌≡◌, OnOk};
ghost use Rattle.mds_rule.specs.ServedFiles.{takes_input, one_by_one, ends_periods, forgotten, ends_client};
ghost use Rattle.mds_rule.specs.MdsStates.{confirmed_node};
ghost use Rattle.mds_rule.specs.SessionOps.{confirms};
ghost use Rattle.file_rule.specs.FilePhases.{Revokes};
ghost use Rattle.compound_run.specs.CompoundRuns.{HasMadeStep};

use crate::inputs::take_input;
use crate::state::State;
use cluster_model::{EndCause, FileId, NodeId, Outbox};
use ff_xdr::NoMemory;
use mds_file::FileInput;

/// The node from which a client's id was confirmed.
pub fn confirmed_node(state: &State, client: u64) -> Option<NodeId>
    ensures { result ≡ confirmed_node state.now client }
{
    state.confirmed.get(&client).copied()
}

/// A client's id is confirmed with its first session, from this node. Takes memory.
pub fn confirm(state: &mut State, client: u64, node: NodeId) -> Result<(), NoMemory>
    ensures { OnOk result (state.new ≡ confirms client node state.old) }
{
    if confirmed_node(state, client).is_some() {
        return Ok(());
    }
    state.confirmed.insert(client, node)?;
    Ok(())
}

/// The periods of these files end, one after the other. Takes memory.
fn revoke_all(
    state: &mut State,
    files: &[FileId],
    cause: EndCause,
    out: &mut Outbox,
) -> Result<(), NoMemory>
    ensures steps { OnOk result (HasMadeStep (one_by_one (λ m file. takes_input m file (Revokes cause)) files.now state.old) out.old state.new out.new) }
    ensures silent { OnOk result (out.new.sends.items ≡ out.old.sends.items) }
{
    for file in files {
        take_input(state, *file, FileInput::Revokes(cause), out)?;
    }
    Ok(())
}

/// Each period of a client ends, in the order of the files. It costs by the number of files. Takes memory.
pub fn end_periods(
    state: &mut State,
    client: u64,
    cause: EndCause,
    out: &mut Outbox,
) -> Result<(), NoMemory>
    ensures steps { OnOk result (HasMadeStep (ends_periods state.old client cause) out.old state.new out.new) }
    ensures silent { OnOk result (out.new.sends.items ≡ out.old.sends.items) }
{
    let held = state.files.held_by(client)?;
    revoke_all(state, &held, cause, out)
}

/// Its opens end too; where it was confirmed from and what it reclaimed is forgotten.
fn forget(state: &mut State, client: u64)
    ensures { state.new ≡ forgotten client state.old }
{
    state.opens.end(client);
    state.confirmed.shift_remove(&client);
    state.reclaimed.shift_remove(&client);
}

/// A client is gone: its lease ended, it restarted, or it was destroyed. Takes memory.
pub fn end_client(
    state: &mut State,
    client: u64,
    cause: EndCause,
    out: &mut Outbox,
) -> Result<(), NoMemory>
    ensures steps { OnOk result (HasMadeStep (ends_client state.old client cause) out.old state.new out.new) }
    ensures silent { OnOk result (out.new.sends.items ≡ out.old.sends.items) }
{
    end_periods(state, client, cause, out)?;
    forget(state, client);
    Ok(())
}
