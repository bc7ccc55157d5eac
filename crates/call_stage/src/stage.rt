//! What is asked of a stage.

ghost use Rattle.std.specs.Prelude.{◌≡◌};
ghost use Rattle.cluster_model.specs.Fences.{waits, is_out, is_over, is_kept, stage_at_tick};
ghost use Rattle.call_stage.specs.KeptCalls.{is_kept_out, kept_out_to};

use cluster_model::CallStage;

/// It waits to be sent.
pub fn waits(stage: CallStage) -> bool
    ensures { result ≡ waits stage }
{
    matches!(stage, CallStage::Waits)
}

/// It is outstanding under this number.
pub fn is_out(xid: u32, stage: CallStage) -> bool
    ensures { result ≡ is_out xid stage }
{
    match stage {
        CallStage::Out { xid: own, .. } | CallStage::KeptOut { xid: own } => own == xid,
        _ => false,
    }
}

/// It was answered as wanted, or given up.
pub fn is_over(stage: CallStage) -> bool
    ensures { result ≡ is_over stage }
{
    matches!(stage, CallStage::Done | CallStage::GivenUp)
}

/// It waits for the next tick.
pub fn is_kept(stage: CallStage) -> bool
    ensures { result ≡ is_kept stage }
{
    matches!(stage, CallStage::KeptOut { .. } | CallStage::KeptBack)
}

/// Where it stands after a tick: what was kept is sent again.
pub fn stage_at_tick(stage: CallStage) -> CallStage
    ensures { result ≡ stage_at_tick stage }
{
    match stage {
        CallStage::KeptOut { xid } => CallStage::Out { xid, timeouts: 0 },
        CallStage::KeptBack => CallStage::Waits,
        other => other,
    }
}

/// It is outstanding, and waits for the next tick.
pub fn is_kept_out(stage: CallStage) -> bool
    ensures { result ≡ is_kept_out stage }
{
    matches!(stage, CallStage::KeptOut { .. })
}

/// A call to this server that is kept outstanding until the next tick, by the server and its number.
pub fn kept_out_to(server: u32, stage: CallStage) -> Option<(u32, u32)>
    ensures { result ≡ kept_out_to server stage }
{
    match stage {
        CallStage::KeptOut { xid } => Some((server, xid)),
        _ => None,
    }
}
