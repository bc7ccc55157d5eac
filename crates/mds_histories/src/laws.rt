//! What a history of a metadata server tells.

ghost use Rattle.std.specs.Prelude.{List};
ghost use Rattle.mds_rule.specs.MdsStates.{MdsValue};
ghost use Rattle.mds_walk.specs.MdsRuns.{MdsEvent};
ghost use Rattle.mds_histories.specs.MdsHistory.{IsOfRun};

/// The history of any events enters and sends what their run does, in the same order.
pub fn mds_histories()
    ensures run { (m : MdsValue) (events : List MdsEvent) → IsOfRun m events }
{}
