//! What a timeout that names its call comes to.

ghost use Rattle.std.specs.Prelude.{◌≡◌, ◌≢◌, ℕ, false, None, Some, slice_get};
ghost use Rattle.cluster_model.specs.declared.entry.Entry.TheVariants.{TimedOut};
ghost use Rattle.cluster_model.specs.declared.ids.NodeId.{NodeId};
ghost use Rattle.cluster_model.specs.declared.ids.NodeId.TheVariants.{Client};
ghost use Rattle.client_state.specs.ClientStates.{ClientValue};
ghost use Rattle.client_state.specs.ClientSends.{sends_none};
ghost use Rattle.mirror_client.specs.ClientRule.{client_late, client_timed_out, outstanding_to};

/// A timeout that names a call is the timeout of the runs of clients where that call is outstanding there, and else it
/// leaves the client as it is, and enters and sends nothing; one without a number is always that of the runs. What is
/// outstanding at a node is the call of which the journal says then that it timed out.
pub fn late_law()
    ensures named { (to : NodeId) (xid : ℕ) (c : ClientValue) → outstanding_to to c ≡ Some xid → client_late to (Some xid) c ≡ client_timed_out to c }
    ensures others { (to : NodeId) (xid : ℕ) (c : ClientValue) → outstanding_to to c ≢ Some xid → client_late to (Some xid) c ≡ sends_none c }
    ensures unnamed { (to : NodeId) (c : ClientValue) → client_late to None c ≡ client_timed_out to c }
    ensures entered { (to : NodeId) (xid : ℕ) (c : ClientValue) → c.has_left ≡ false → outstanding_to to c ≡ Some xid → slice_get (client_timed_out to c).entries 0 ≡ Some (TimedOut (Client c.number) xid) }
{}
