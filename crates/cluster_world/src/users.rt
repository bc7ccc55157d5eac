//! What users ask of clients, and clients that leave or start anew.

ghost use Rattle.std.specs.Prelude.{◌≡◌, ◌≤◌, IfOk, length, replicate};
ghost use Rattle.cluster_model.specs.declared.limits.TheConstants.{PIECE_SIZE};
ghost use Rattle.cluster_model.specs.Event.{Open, Write, Through, Fill, Commit, Read, Return, Rogue, Stray, Reboot, Audit};
ghost use Rattle.world_rule.specs.Machines.{nth};
ghost use Rattle.world_rule.specs.ClusterWorlds.{behind, verifier_after, may_start, with_verifier};
ghost use Rattle.cluster_world.specs.WorldSteps.{IsNoted, StageBecomes};

use crate::stage::Stage;
use cluster_machines::Machines;
use cluster_model::{FileId, NodeId, Outbox};
use ff_xdr::NoMemory;
use std::alloc::Global;
use world_journal::WorldFault;

/// So many equal bytes.
fn equal_bytes(alloc: Global, byte: u8, count: u32) -> Result<Vec<u8>, NoMemory>
    ensures { IfOk result (λ bytes. bytes.items ≡ replicate count byte) }
{
    let bytes = vec![in alloc; byte; count as usize]?;
    Ok(bytes)
}

/// A client is there and has not left.
fn may_start(machines: &Machines, client: u32) -> bool
    ensures { result ≡ may_start (nth machines.now.clients client) }
{
    match machines.client(client) {
        Some(client) => !client.has_left(),
        None => false,
    }
}

/// The verifier of a client's next start.
fn next_verifier(verifiers: &[u64], client: u32) -> u64
    ensures { result ≡ verifier_after (nth verifiers.now client) }
{
    let Some(place) = (client as usize).checked_sub(1) else {
        return 0;
    };
    match verifiers.get(place) {
        Some(verifier) => verifier.wrapping_add(1),
        None => 0,
    }
}

/// A client starts with this verifier, if it does.
fn set_verifier(verifiers: &mut Vec<u64>, client: u32, verifier: u64, starts: bool)
    ensures { verifiers.new.items ≡ with_verifier client verifier starts verifiers.old.items }
{
    if !starts {
        return;
    }
    let place = (client as usize).saturating_sub(1);
    if let Some(kept) = verifiers.get_mut(place) {
        *kept = verifier;
    }
}

impl Stage {
    /// A file of this name, of at most 255 bytes, is to be opened.
    pub fn open(&mut self, client: u32, name: &str) -> Result<(), WorldFault>
        requires noted { IsNoted self.old }
        requires few { length name.now ≤ 255 }
        ensures { StageBecomes self.old (behind (Open client name.now) self.old.world) result self.new }
    {
        let mut out = Outbox::new(self.alloc);
        self.machines.open(client, name, &mut out)?;
        self.act(NodeId::Client(client), out)
    }

    /// 1 to 65,536 bytes are to be written, to the mirrors.
    pub fn write(&mut self, client: u32, at: u64, bytes: &[u8]) -> Result<(), WorldFault>
        requires noted { IsNoted self.old }
        requires some { 1 ≤ length bytes.now }
        requires few { length bytes.now ≤ PIECE_SIZE }
        ensures { StageBecomes self.old (behind (Write client at bytes.now) self.old.world) result self.new }
    {
        let mut out = Outbox::new(self.alloc);
        self.machines.write(client, at, bytes, &mut out)?;
        self.act(NodeId::Client(client), out)
    }

    /// The same, of equal bytes.
    pub fn fill(&mut self, client: u32, at: u64, count: u32, byte: u8) -> Result<(), WorldFault>
        requires noted { IsNoted self.old }
        requires some { 1 ≤ count }
        requires few { count ≤ PIECE_SIZE }
        ensures { StageBecomes self.old (behind (Fill client at count byte) self.old.world) result self.new }
    {
        let bytes = equal_bytes(self.alloc, byte, count)?;
        self.write(client, at, &bytes)
    }

    /// 1 to 65,536 bytes are to be written through the metadata server.
    pub fn through(&mut self, client: u32, at: u64, bytes: &[u8]) -> Result<(), WorldFault>
        requires noted { IsNoted self.old }
        requires some { 1 ≤ length bytes.now }
        requires few { length bytes.now ≤ PIECE_SIZE }
        ensures { StageBecomes self.old (behind (Through client at bytes.now) self.old.world) result self.new }
    {
        let mut out = Outbox::new(self.alloc);
        self.machines.through(client, at, bytes, &mut out)?;
        self.act(NodeId::Client(client), out)
    }

    /// What was written is to be committed.
    pub fn commit(&mut self, client: u32) -> Result<(), WorldFault>
        requires { IsNoted self.old }
        ensures { StageBecomes self.old (behind (Commit client) self.old.world) result self.new }
    {
        let mut out = Outbox::new(self.alloc);
        self.machines.commit(client, &mut out)?;
        self.act(NodeId::Client(client), out)
    }

    /// So many bytes are to be read from this place on.
    pub fn read(&mut self, client: u32, at: u64, count: u32) -> Result<(), WorldFault>
        requires { IsNoted self.old }
        ensures { StageBecomes self.old (behind (Read client at count) self.old.world) result self.new }
    {
        let mut out = Outbox::new(self.alloc);
        self.machines.read(client, at, count, &mut out)?;
        self.act(NodeId::Client(client), out)
    }

    /// The layout is to be given back.
    pub fn return_all(&mut self, client: u32) -> Result<(), WorldFault>
        requires { IsNoted self.old }
        ensures { StageBecomes self.old (behind (Return client) self.old.world) result self.new }
    {
        let mut out = Outbox::new(self.alloc);
        self.machines.return_all(client, &mut out)?;
        self.act(NodeId::Client(client), out)
    }

    /// A client leaves the protocol, once.
    pub fn turn(&mut self, client: u32) -> Result<(), WorldFault>
        requires { IsNoted self.old }
        ensures { StageBecomes self.old (behind (Rogue client) self.old.world) result self.new }
    {
        let mut out = Outbox::new(self.alloc);
        self.machines.turn(client, &mut out)?;
        self.act(NodeId::Client(client), out)
    }

    /// A client that left writes at most 65,536 bytes to the mirror at this place of its layout, from 1.
    pub fn stray(
        &mut self,
        client: u32,
        place: u32,
        at: u64,
        bytes: &[u8],
    ) -> Result<(), WorldFault>
        requires noted { IsNoted self.old }
        requires few { length bytes.now ≤ PIECE_SIZE }
        ensures { StageBecomes self.old (behind (Stray client place at bytes.now) self.old.world) result self.new }
    {
        let mut out = Outbox::new(self.alloc);
        self.machines.stray(client, place, at, bytes, &mut out)?;
        self.act(NodeId::Client(client), out)
    }

    /// A client starts anew, with its next verifier; one that left stays as it is.
    pub fn reboot(&mut self, client: u32) -> Result<(), WorldFault>
        requires { IsNoted self.old }
        ensures { StageBecomes self.old (behind (Reboot client) self.old.world) result self.new }
    {
        let starts = may_start(&self.machines, client);
        let verifier = next_verifier(&self.verifiers, client);
        set_verifier(&mut self.verifiers, client, verifier, starts);
        let mut out = Outbox::new(self.alloc);
        self.machines.reboot(client, verifier, &mut out)?;
        self.act(NodeId::Client(client), out)
    }

    /// The live mirrors of a file are put into the journal.
    pub fn audit(&mut self, file: FileId) -> Result<(), WorldFault>
        requires { IsNoted self.old }
        ensures { StageBecomes self.old (behind (Audit file.0) self.old.world) result self.new }
    {
        let mut out = Outbox::new(self.alloc);
        self.machines.audit(file, &mut out)?;
        self.act(NodeId::Mds, out)
    }
}
