//! The world of one data server.

ghost use Rattle.std.specs.Prelude.{◌≡◌, ◌+◌, ◌<◌, ◌≤◌, ◌^◌, [], ◌∷◌, IfOk, Err, Some, None, length, option_copied};
ghost use Rattle.world_journal.specs.Journal.{IsJournalInRange};
ghost use Rattle.world_journal.specs.declared.fault.WorldFault.{WorldFault};
ghost use Rattle.ff_script.specs.Line.{event_value};
ghost use Rattle.cluster_model.specs.Event.{Deliver, Restart};
ghost use Rattle.ff_world.specs.World.{preset_world, server_at, deliver_entries, Meets, Happens, Enters};

use cluster_model::{Entry, NodeId, Outbox, Pieces};
use ds_files::{DataServer, RestartFault};
use ff_script::BareEvent;
use ff_xdr::{Data, NoMemory};
use std::alloc::Global;
use std::marker::Model;
use world_journal::{Journal, WorldFault, push_packets};

/// The client that a bare script's records come from.
const CLIENT: NodeId = NodeId::Client(0);

/// The number of a bare script's data server.
const NUMBER: u32 = 1;

/// The data server of a bare script.
const SERVER: NodeId = NodeId::Server(NUMBER);

/// One data server, how many packets were sent so far, and the journal. A world is spent once
/// an event did not happen.
#[derive(Drop)]
pub struct BareWorld {
    alloc: Global,
    server: DataServer,
    sent: u64,
    journal: Journal,
    spent: Option<WorldFault>,
}

impl Model for BareWorld {
    ghost use Rattle.ff_world.specs.World.{WorldValue, IsSound};

    ghost Value = { WorldValue };

    ghost view = { λ w. record { world = record { server = w.server; sent = w.sent; journal = w.journal }; spent = w.spent } };

    ghost invariant = { λ w. IsSound w.sent w.journal };
}

/// The entries of a delivery: the packet with the next number, that it came, what it brought about, and
/// a packet for each record that the data server sends.
fn delivery(
    alloc: Global,
    sent: u64,
    bytes: Data,
    mut entries: Vec<Entry>,
    sends: Vec<(NodeId, Data)>,
) -> Result<Vec<Entry>, NoMemory>
    requires { sent + 1 + length sends.items < 2 ^ 64 }
    ensures { IfOk result (λ added. added.items ≡ deliver_entries sent bytes entries.items sends.items) }
{
    let number = sent + 1;
    let mut added = Vec::new(alloc);
    added.push(Entry::Packet {
        number,
        from: CLIENT,
        to: SERVER,
        bytes,
    })?;
    added.push(Entry::Delivered { number })?;
    added.append(&mut entries)?;
    push_packets(&mut added, SERVER, number, sends)?;
    Ok(added)
}

/// The entry alone.
fn one_entry(alloc: Global, entry: Entry) -> Result<Vec<Entry>, NoMemory>
    ensures { IfOk result (λ added. added.items ≡ entry ∷ []) }
{
    let mut added = Vec::new(alloc);
    added.push(entry)?;
    Ok(added)
}

impl BareWorld {
    /// Before any event. Takes memory.
    pub fn new(alloc: Global) -> Result<BareWorld, NoMemory>
        ensures { IfOk result (λ world. world ≡ record { world = preset_world; spent = None }) }
    {
        Ok(BareWorld {
            alloc,
            server: DataServer::preset(alloc)?,
            sent: 0,
            journal: Journal::new(alloc),
            spent: None,
        })
    }

    /// The data server, where it has this number.
    pub fn server(&self, number: u32) -> Option<&DataServer>
        ensures { option_copied result ≡ server_at self.now.world number }
    {
        (number == NUMBER).then_some(&self.server)
    }

    /// The journal: the entries of all events that happened, in order.
    pub fn journal(&self) -> &[Entry]
        ensures is { result.now ≡ self.now.world.journal }
        ensures range { IsJournalInRange self.now.world.journal }
    {
        self.journal.entries()
    }

    /// How many entries the journal has.
    pub fn count(&self) -> u64
        ensures { result ≡ length self.now.world.journal }
    {
        self.journal.count()
    }

    /// Lets an event happen, and adds its entries to the journal. At an error the journal is as before,
    /// and the world is spent: it answers each event by that error, and nothing changes.
    pub fn step(&mut self, event: &BareEvent<'_>) -> Result<(), WorldFault>
        ensures meets { self.old.spent ≡ None → Meets self.old.world (event_value event.now) result self.new }
        ensures spent { (fault : WorldFault) → self.old.spent ≡ Some fault → (result ≡ Err fault) × (self.new ≡ self.old) }
    {
        if let Some(fault) = self.spent {
            return Err(fault);
        }
        if let Err(fault) = self.happen(event) {
            self.spent = Some(fault);
            return Err(fault);
        }
        Ok(())
    }

    /// Lets an event happen in a world that is not spent. At an error the world is not to be used again.
    fn happen(&mut self, event: &BareEvent<'_>) -> Result<(), WorldFault>
        ensures happens { Happens self.old.world (event_value event.now) result self.new.world }
        ensures spent { self.new.spent ≡ self.old.spent }
    {
        match event {
            BareEvent::Deliver(digits) => {
                let bytes = digits.decode(self.alloc)?;
                self.deliver(Data::from_vec(bytes))
            }
            BareEvent::Restart(pieces) => {
                let pieces = pieces.decode(self.alloc)?;
                self.restart(Pieces::from_vec(pieces))
            }
        }
    }

    /// Starts the data server again, which does nothing where its boots are spent. At an error the
    /// world is not to be used again.
    fn restart(&mut self, pieces: Pieces) -> Result<(), WorldFault>
        ensures happens { Happens self.old.world (Restart 1 pieces) result self.new.world }
        ensures spent { self.new.spent ≡ self.old.spent }
    {
        match self.server.restart(pieces.as_slice()) {
            Err(RestartFault::BootsSpent) => return Ok(()),
            Err(RestartFault::NoMemory) => return Err(WorldFault::NoMemory),
            Ok(()) => {}
        }
        let entry = Entry::Restarted {
            server: NUMBER,
            pieces,
        };
        let added = one_entry(self.alloc, entry)?;
        let sent = self.sent;
        self.enter(sent, added)
    }

    /// Hands a record to the data server. At an error the world is not to be used again.
    fn deliver(&mut self, bytes: Data) -> Result<(), WorldFault>
        ensures happens { Happens self.old.world (Deliver bytes) result self.new.world }
        ensures spent { self.new.spent ≡ self.old.spent }
    {
        let mut out = Outbox::new(self.alloc);
        self.server.on_record(CLIENT, bytes.bytes(), &mut out)?;
        let Outbox { entries, sends } = out;
        let sent = self.sent + 1 + sends.len() as u64;
        let added = delivery(self.alloc, self.sent, bytes, entries, sends)?;
        self.enter(sent, added)
    }

    /// Adds entries to the journal where the limits let them in; so many packets were sent then. At an
    /// error nothing has changed.
    fn enter(&mut self, sent: u64, added: Vec<Entry>) -> Result<(), WorldFault>
        requires { sent ≤ length self.old.world.journal + length added.items }
        ensures { Enters self.old sent added.items result self.new }
    {
        self.journal.add(added)?;
        self.sent = sent;
        Ok(())
    }
}
