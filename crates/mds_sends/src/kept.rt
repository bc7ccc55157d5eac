//! What files have kept until a tick.

ghost use Rattle.std.specs.Prelude.{◌≡◌, ◌++◌, IfOk, OnOk};
ghost use Rattle.mds_rule.specs.MdsStates.{served};
ghost use Rattle.mds_rule.specs.Events.{kept_calls, kept_call_of};
ghost use Rattle.mds_sends.specs.Kept.{kept_as, numbered_kept};

use cluster_model::FileId;
use ff_xdr::NoMemory;
use mds_state::State;

/// A call that a file kept until the tick: the file's number, and the server and the number of the call.
#[derive(Clone, Copy, Debug, PartialEq, Eq)]
pub struct NumberedCall {
    pub number: u32,
    pub server: u32,
    pub xid: u32,
}

/// What this file has kept goes behind what others have. Takes memory.
fn note_kept(state: &State, file: FileId, kept: &mut Vec<NumberedCall>) -> Result<(), NoMemory>
    ensures { OnOk result (kept.new.items ≡ kept.old.items ++ kept_as file.0 (kept_call_of (served state.now file))) }
{
    let Some(served) = state.files.get(file) else {
        return Ok(());
    };
    let Some((server, xid)) = served.file.kept_out() else {
        return Ok(());
    };
    let number = file.0;
    kept.push(NumberedCall {
        number,
        server,
        xid,
    })?;
    Ok(())
}

/// What files have kept, in their order. It costs by the files that a tick may change. Takes memory.
pub fn kept_calls(state: &State) -> Result<Vec<NumberedCall>, NoMemory>
    ensures { IfOk result (λ kept. kept.items ≡ numbered_kept 1 (kept_calls state.now)) }
{
    let mut kept = Vec::new(state.alloc);
    let mut from = 1;
    while let Some(file) = state.files.next_restless(from) {
        note_kept(state, file, &mut kept)?;
        from = file.0 + 1;
    }
    Ok(kept)
}
