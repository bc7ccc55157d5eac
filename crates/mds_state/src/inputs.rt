//! Inputs of the table of phases.

ghost use Rattle.std.specs.Prelude.{◌≡◌, is_some, OnOk};
ghost use Rattle.std.specs.Bool.{OnTrue};
ghost use Rattle.layout_state.specs.Grants.{holder_to_recall};
ghost use Rattle.mds_rows.specs.Draws.{HasFresh};
ghost use Rattle.mds_file.specs.Inputs.{plain_input};
ghost use Rattle.mds_rule.specs.ServedFiles.{has_fresh, takes_input, with_new_recall, asks_back};
ghost use Rattle.mds_rule.specs.Answers.{recall_outcome};
ghost use Rattle.compound_run.specs.CompoundRuns.{HasMadeStep};

use crate::state::State;
use cluster_model::{Cred, EndCause, FileId, Outbox};
use ff_xdr::NoMemory;
use file_rule::Fresh;
use layout_state::FileState;
use mds_file::{FileInput, has_fresh};
use recall::{AskFault, Outcome};

/// What one input may draw is there: a uid, and a number of a name for each of four targets.
pub fn can_draw(fresh: Fresh) -> bool
    ensures exact { result ≡ has_fresh fresh }
    ensures drawn { OnTrue result (HasFresh fresh) }
{
    has_fresh(&fresh)
}

/// An input of the table of phases comes to a file, and the recalls of a period that ends with it are over. Takes memory.
pub fn take_input(
    state: &mut State,
    file: FileId,
    input: FileInput<'_>,
    out: &mut Outbox,
) -> Result<(), NoMemory>
    ensures steps { OnOk result (HasMadeStep (takes_input state.old file (plain_input input.entry)) out.old state.new out.new) }
    ensures silent { OnOk result (out.new.sends.items ≡ out.old.sends.items) }
{
    let mut fresh = state.fresh;
    if !can_draw(fresh) {
        return Ok(());
    }
    let has_ended = state.files.take(file, input, &mut fresh, &mut out.entries)?;
    state.fresh = fresh;
    if has_ended {
        state.recalls.end(file);
    }
    Ok(())
}

/// A client holds it, and is not asked for it yet.
fn may_recall(layout: FileState) -> bool
    ensures { result ≡ is_some (holder_to_recall layout.phase) }
{
    let mut asked = layout;
    asked.recall()
}

/// The recall of a client's layout begins, where none of it is under way. Takes memory.
fn begin_recall(
    state: &mut State,
    file: FileId,
    cred: Cred,
    holder: Option<u64>,
    now: u64,
) -> Result<(), NoMemory>
    ensures { OnOk result (state.new ≡ with_new_recall state.old file cred holder now) }
{
    let Some(client) = holder else {
        return Ok(());
    };
    match state.recalls.ask(file, cred, client, now) {
        Ok(()) | Err(AskFault::Asked) => Ok(()),
        Err(AskFault::NoMemory(e)) => Err(e),
    }
}

/// The layout that a client has of a file is asked back, where it is not yet; it is `now`, in seconds. Takes memory.
pub fn ask_back(state: &mut State, file: FileId, now: u64, out: &mut Outbox) -> Result<(), NoMemory>
    ensures steps { OnOk result (HasMadeStep (asks_back state.old file now) out.old state.new out.new) }
    ensures silent { OnOk result (out.new.sends.items ≡ out.old.sends.items) }
{
    let Some(served) = state.files.get(file) else {
        return Ok(());
    };
    let (layout, holder) = (served.state(), served.holder);
    if !may_recall(layout) {
        return Ok(());
    }
    take_input(state, file, FileInput::Recall, out)?;
    begin_recall(state, file, layout.cred(), holder, now)
}

/// What a recall came to: the period ends where the client knows of no such layout, and where it did not answer. Takes memory.
pub fn end_recall(state: &mut State, outcome: Outcome, out: &mut Outbox) -> Result<(), NoMemory>
    ensures steps { OnOk result (HasMadeStep (recall_outcome state.old outcome) out.old state.new out.new) }
    ensures silent { OnOk result (out.new.sends.items ≡ out.old.sends.items) }
{
    match outcome {
        Outcome::NoLayout(file, _) => {
            take_input(state, file, FileInput::Revokes(EndCause::NoLayout), out)
        }
        Outcome::Expired(file, _) => {
            take_input(state, file, FileInput::Revokes(EndCause::Recalled), out)
        }
        _ => Ok(()),
    }
}
