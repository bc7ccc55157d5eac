//! The calls that are outstanding.

ghost use Rattle.std.specs.Prelude.{◌≡◌, ◌&&◌, [], find, option_copied, OnOk, OnErr};
ghost use Rattle.cluster_model.specs.Nodes.{is_node};
ghost use Rattle.mds_rule.specs.MdsStates.{with_call, is_call_to, without_call};
ghost use Rattle.awaited_calls.specs.Awaited.{AreOrdered, is_behind, start_behind};

use crate::awaited_call::AwaitedCall;
use cluster_model::NodeId;
use ff_xdr::NoMemory;
use std::alloc::Global;
use std::collections::BTreeMap;
use std::marker::Model;
use std::ops::Bound;

/// The calls that were sent and are not answered, each number once (RFC 5531, section 9). Clauses see a list, in the order of
/// the numbers. `add`, `get`, `remove`, `take` and `first_behind` cost the logarithm of how many there are.
#[derive(Drop)]
pub struct Calls {
    calls: BTreeMap<u32, AwaitedCall>,
}

impl Model for Calls {
    ghost use Rattle.std.specs.Prelude.{List};
    ghost use Rattle.mds_rule.specs.MdsStates.{AwaitedCall as AwaitedCallValue};
    ghost use Rattle.awaited_calls.specs.Awaited.{calls_of, AtOwnNumbers};

    ghost Value = { List AwaitedCallValue };

    ghost view = { λ c. calls_of c.calls.entries };

    ghost invariant = { λ c. AtOwnNumbers c.calls.entries };
}

impl Calls {
    /// No call is outstanding. Takes no memory.
    pub fn new(alloc: Global) -> Calls
        ensures { result ≡ [] }
    {
        Calls {
            calls: BTreeMap::new(alloc),
        }
    }

    /// A call was sent. One of the same number gives way to it.
    ///
    /// # Errors
    /// `NoMemory` where memory is wanted. Nothing has changed then, and the call is gone.
    pub fn add(&mut self, call: AwaitedCall) -> Result<(), NoMemory>
        ensures ok { OnOk result (self.new ≡ with_call call self.old) }
        ensures err { OnErr result (self.new ≡ self.old) }
    {
        let before = self.calls.insert(call.xid, call)?;
        drop(before);
        Ok(())
    }

    /// The call to this node under this number.
    pub fn get(&self, node: NodeId, xid: u32) -> Option<&AwaitedCall>
        ensures { option_copied result ≡ find (is_call_to node xid) self.now }
    {
        let call = self.calls.get(&xid)?;
        if !goes_to(call, node) {
            return None;
        }
        Some(call)
    }

    /// The call to this node under this number is answered, or given up; where there is none nothing changes. Takes no memory.
    pub fn remove(&mut self, node: NodeId, xid: u32)
        ensures { self.new ≡ without_call node xid self.old }
    {
        drop(self.take(node, xid));
    }

    /// The call to this node under this number, which is answered, or given up; where there is none nothing changes. Takes no
    /// memory.
    pub fn take(&mut self, node: NodeId, xid: u32) -> Option<AwaitedCall>
        ensures found { result ≡ find (is_call_to node xid) self.old }
        ensures rest { self.new ≡ without_call node xid self.old }
    {
        if self.get(node, xid).is_none() {
            return None;
        }
        self.calls.remove(&xid)
    }

    /// The first call behind the one with a number, or of all. Costs the logarithm of how many there are.
    pub fn first_behind(&self, after: Option<u32>) -> Option<&AwaitedCall>
        ensures next { option_copied result ≡ find (λ call. is_behind after call.xid) self.now }
        ensures ordered { AreOrdered self.now }
    {
        let start = start_behind(after);
        match self.calls.range((start, Bound::Unbounded)).next() {
            None => None,
            Some((_, call)) => Some(call),
        }
    }

    /// The first call to this node behind the one with a number, or of all. Costs the logarithm of how many there are, and the calls
    /// to other nodes from there on that stand before it.
    pub fn next_to(&self, node: NodeId, after: Option<u32>) -> Option<&AwaitedCall>
        ensures next { option_copied result ≡ find (λ call. is_node call.node node && is_behind after call.xid) self.now }
        ensures ordered { AreOrdered self.now }
    {
        let start = start_behind(after);
        for (_, call) in self.calls.range((start, Bound::Unbounded)) {
            if goes_to(call, node) {
                return Some(call);
            }
        }
        None
    }
}

/// From behind a number on, or from the first one on.
fn start_behind(after: Option<u32>) -> Bound<u32>
    ensures { result ≡ start_behind after }
{
    match after {
        Some(xid) => Bound::Excluded(xid),
        None => Bound::Unbounded,
    }
}

/// The call goes to this node.
fn goes_to(call: &AwaitedCall, node: NodeId) -> bool
    ensures { result ≡ is_node call.now.node node }
{
    call.node == node
}
