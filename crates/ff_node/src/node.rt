//! What a node does with what comes.

ghost use Rattle.std.specs.Prelude.{◌≡◌, ◌++◌, Bool, Option, IfOk, OnOk, OnErr};
ghost use Rattle.rpc_record.specs.Stream.{counted};
ghost use Rattle.node_link.specs.declared.link.Arrival.{Arrival};
ghost use Rattle.store_disk.specs.Disks.{DiskLife, both_faults};
ghost use Rattle.ff_node.specs.Nodes.{NodeRule, event_at};
ghost use Rattle.ff_node.specs.Serve.{KeepsOr, WritesFor, disk_counted, sink_counted};

use crate::fault::EventFault;
use cluster_model::{FailCause, Outbox};
use node_link::Arrival;
use rpc_record::{Failed, Sink};
use store_disk::Disk;

/// A node of the cluster, which changes by what comes, sends records, may write bytes to a sink and keep what it is to
/// remember on two disks, and may end by itself.
///
/// Arrivals that came together it may take together: what it is to remember of them waits until `settle`, behind which what it
/// sends for them is sent.
pub trait Node {
    /// What counts of a node for its rule.
    ghost State: { Type 0 };

    ghost state: { Self → State };

    /// What an event does to it; how it ends by itself; whether it serves others; and how many more arrivals it takes
    /// together with one.
    ghost rule: { NodeRule State };

    /// The arrival is a call of which the node knows that it gets no answer, now or later.
    ghost excuses: { Self → Arrival → Bool };

    /// No call of the node has failed.
    ghost is_usable: { Self → Type 0 };

    /// The disks, the first and the spare, have what the node is to remember in this state; what it is to remember since then
    /// waits.
    ghost keeps: { State → Self → Option DiskLife → Option DiskLife → Type 0 };

    /// What a crash leaves is what the node is to remember in the one state, or in the other.
    ghost leaves: { State → State → Option DiskLife → Option DiskLife → Type 0 };

    /// Takes an arrival, at a moment in seconds: puts out the records that it sends for it, has what it is to remember wait
    /// for `settle`, and writes its bytes to the sink. Answers whether it is a call of which it knows that it gets no answer,
    /// now or later.
    ///
    /// At an error none of what it put out since it was settled last is to be sent, a beginning of its bytes may have been
    /// written, and the node is not to be used again.
    fn take<K: Sink, D: Disk>(
        &mut self,
        moment: u64,
        arrival: Arrival,
        out: &mut Outbox,
        sink: &mut K,
        disk: &mut D,
        spare: &mut D,
    ) -> Result<bool, EventFault>
        requires { is_usable self.old }
        ensures usable { OnOk result (is_usable self.new) }
        ensures state { OnOk result (state self.new ≡ ((rule.step) (state self.old) (event_at moment arrival)).state) }
        ensures sends { OnOk result (out.new.sends.items ≡ out.old.sends.items ++ ((rule.step) (state self.old) (event_at moment arrival)).sends) }
        ensures excuses { IfOk result (λ is_excused. is_excused ≡ excuses self.old arrival) }
        ensures writes { WritesFor (K.held sink.old) ((rule.step) (state self.old) (event_at moment arrival)).text result (K.held sink.new) }
        ensures faults { K.faults sink.new ≡ sink_counted result (K.faults sink.old) }
        ensures keeps { (settled : State) → keeps settled self.old (D.told disk.old) (D.told spare.old) → KeepsOr keeps leaves settled self.new result (D.told disk.new) (D.told spare.new) }
        ensures disk_faults { both_faults (D.faults disk.new) (D.faults spare.new) ≡ disk_counted result (both_faults (D.faults disk.old) (D.faults spare.old)) };

    /// What it is to remember waits for `settle`.
    fn has_waiting(&self) -> bool;

    /// Keeps on the disks what it is to remember, all of it: once this is done, what was put out may be sent. At an error the
    /// node is not to be used again.
    fn settle<D: Disk>(&mut self, disk: &mut D, spare: &mut D) -> Result<(), Failed>
        requires { is_usable self.old }
        ensures usable { OnOk result (is_usable self.new) }
        ensures state { OnOk result (state self.new ≡ state self.old) }
        ensures keeps { (settled : State) → keeps settled self.old (D.told disk.old) (D.told spare.old) → OnOk result (keeps (state self.new) self.new (D.told disk.new) (D.told spare.new)) }
        ensures broken { (settled : State) → keeps settled self.old (D.told disk.old) (D.told spare.old) → OnErr result (leaves settled (state self.old) (D.told disk.new) (D.told spare.new)) }
        ensures disk_faults { both_faults (D.faults disk.new) (D.faults spare.new) ≡ counted result (both_faults (D.faults disk.old) (D.faults spare.old)) };

    /// What it came to, once it has ended by itself.
    fn outcome(&self) -> Option<Result<(), FailCause>>
        ensures { result ≡ (rule.outcome) (state self.now) };

    /// It serves others, and ends well where nothing more comes.
    fn is_server(&self) -> bool
        ensures { result ≡ rule.is_server };

    /// How many more arrivals it takes together with one.
    fn more_at_once(&self) -> u32
        ensures { result ≡ rule.more_at_once };

    /// While what it is to remember waits, a crash leaves the settled state, whatever the other is; and it does not count which
    /// is named first.
    ghost stood: { (settled broken : State) (node : Self) (disk spare : Option DiskLife) → keeps settled node disk spare → leaves settled broken disk spare };

    ghost turned: { (one other : State) (disk spare : Option DiskLife) → leaves one other disk spare → leaves other one disk spare };
}
