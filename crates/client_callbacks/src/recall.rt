//! Recalls of layouts.

ghost use Rattle.std.specs.Prelude.{◌≡◌};
ghost use Rattle.nfs4_file_ops.specs.CbLayoutRecall.{layoutrecall4_value, cb_layoutrecall4_args_value};
ghost use Rattle.client_callbacks.specs.Callbacks.{recalled_state, is_state_of, recalls};
ghost use Rattle.client_callbacks.specs.CallbackSteps.{HasRecalled};

use client_state::State;
use nfs4_file_ops::{CbLayoutRecallArgs, LayoutRecall};
use nfs4_types::{Stat4, Stateid};

/// The layout with this stateid is asked back.
fn is_recalled(kind: &LayoutRecall<'_>, stateid: Stateid) -> bool
    ensures { result ≡ is_state_of (recalled_state (layoutrecall4_value kind.now)) stateid }
{
    match kind {
        LayoutRecall::File(file) => file.stateid.other == stateid.other,
        LayoutRecall::Fsid(_) => false,
        LayoutRecall::All => false,
    }
}

/// CB_LAYOUTRECALL (RFC 8881, section 20.3): the client's layout is given back from now on; a recall of
/// another is NFS4ERR_NOMATCHING_LAYOUT.
pub fn recall(client: &mut State, args: &CbLayoutRecallArgs<'_>) -> Stat4
    ensures { HasRecalled (recalls (cb_layoutrecall4_args_value args.now) client.old) result client.new }
{
    let Some(layout) = &client.layout else {
        return Stat4::NoMatchingLayout;
    };
    if !is_recalled(&args.kind, layout.stateid) {
        return Stat4::NoMatchingLayout;
    }
    client.end_layout();
    Stat4::Ok
}
