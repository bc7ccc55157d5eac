//! `get`: a file becomes bytes of a sink.

ghost use Rattle.std.specs.Prelude.{⊤, ◌≡◌, ◌≤◌, ◌∷◌, ◌++◌, [], false, length, OnOk, IfOk};
ghost use Rattle.rpc_record.specs.Stream.{counted};
ghost use Rattle.client_state.specs.QueueSteps.{HasStepped};
ghost use Rattle.ff_node.specs.Serve.{LeavesNothing, WritesFor, beside, disk_faults, link_faults, sink_faults};
ghost use Rattle.user_nodes.specs.Users.{answers_taken, records_of};
ghost use Rattle.user_nodes.specs.Gets.{GetValue, GetsFile, answer_bytes, answered_bytes, first_outcome, get_begins, get_from, get_rule, goes_on_after, reads_next, saw_more, saw_none, seen_outcome, size_behind};

use crate::asks::ask_get;
use crate::user::{client_does, done_or_failed, fresh_client};
use cluster_model::{FailCause, Outbox, PIECE_SIZE, UserAnswer};
use ff_node::{EventFault, Node, NodeEnd, serve_node};
use ff_xdr::NoMemory;
use line_runs::write_all;
use mirror_client::Client;
use node_config::Config;
use node_link::{Arrival, Clock, Link, Role};
use rpc_record::{Failed, Sink};
use std::alloc::Global;
use std::marker::Model;
use store_disk::{Disk, NoDisk};

/// What the answers of a step say.
#[derive(Clone, Copy, Debug, PartialEq, Eq)]
pub(crate) struct Seen {
    /// Bytes came.
    pub has_bytes: bool,
    /// The file ends behind them.
    pub has_end: bool,
    /// Why a request was not done, of the first that was not.
    pub failed: Option<FailCause>,
}

impl Seen {
    /// No answer came yet.
    fn new() -> Seen
        ensures { result ≡ saw_none }
    {
        Seen {
            has_bytes: false,
            has_end: false,
            failed: None,
        }
    }

    /// Notes an answer.
    fn note(&mut self, answer: &UserAnswer)
        ensures { self.new ≡ saw_more self.old (answer.now ∷ []) }
    {
        match answer {
            UserAnswer::Bytes { eof, .. } => {
                self.has_bytes = true;
                self.has_end = self.has_end || *eof;
            }
            UserAnswer::Failed(cause) => self.failed = self.failed.or(Some(*cause)),
            _ => {}
        }
    }

    /// What the get came to by them.
    fn outcome(&self) -> Option<Result<(), FailCause>>
        ensures { result ≡ seen_outcome self.now }
    {
        done_or_failed(self.failed, self.has_end)
    }

    /// Bytes came, and the file goes on behind them.
    fn goes_on(&self) -> bool
        ensures { result ≡ goes_on_after self.now }
    {
        self.has_bytes && self.outcome().is_none()
    }
}

/// The bytes that were read.
fn answer_bytes(answer: &UserAnswer) -> &[u8]
    ensures { result.now ≡ answer_bytes answer.now }
{
    match answer {
        UserAnswer::Bytes { bytes, .. } => bytes.bytes(),
        _ => &[],
    }
}

/// A client that was asked to get a file, with the last moment that it was given.
#[derive(Drop)]
pub(crate) struct GetNode {
    client: Client,
    size: u64,
    outcome: Option<Result<(), FailCause>>,
    last: Option<u64>,
}

impl Model for GetNode {
    ghost use Rattle.user_nodes.specs.Gets.{GetValue};

    ghost Value = { GetValue };

    ghost view = { λ n. record { client = n.client.client; size = n.size; outcome = n.outcome; last = n.last } };
}

impl GetNode {
    /// A new client that was asked to open the file of this name, and to read its first piece. The moment, in seconds,
    /// tells this start of it from the next. Its first records go to `out`.
    fn begin(
        alloc: Global,
        own: u32,
        moment: u64,
        name: &str,
        out: &mut Outbox,
    ) -> Result<GetNode, NoMemory>
        requires { length name.now ≤ 255 }
        ensures node { IfOk result (λ node. node ≡ get_from (get_begins own moment name.now)) }
        ensures sends { OnOk result (out.new.sends.items ≡ out.old.sends.items ++ records_of (get_begins own moment name.now)) }
    {
        let mut client = fresh_client(alloc, own, moment)?;
        ask_get(&mut client, name, out)?;
        Ok(GetNode {
            client,
            size: 0,
            outcome: None,
            last: None,
        })
    }

    /// Takes the client's answers, one by one, and writes the bytes of each. Returns what they say.
    ///
    /// `Failed::Fault` is the sink's. At an error a beginning of their bytes was written.
    fn take_answers<K: Sink>(&mut self, sink: &mut K) -> Result<Seen, Failed>
        ensures seen { IfOk result (λ seen. seen ≡ saw_more saw_none self.old.client.answers) }
        ensures state { OnOk result (self.new ≡ record self.old { client = answers_taken self.old.client; size = size_behind self.old.size self.old.client.answers }) }
        ensures writes { WritesFor (K.held sink.old) (answered_bytes self.old.client.answers) result (K.held sink.new) }
        ensures faults { K.faults sink.new ≡ counted result (K.faults sink.old) }
    {
        let mut seen = Seen::new();
        let mut size = self.size;
        'answers: while let Some(answer) = self.client.answers() {
            seen.note(&answer);
            let bytes = answer_bytes(&answer);
            write_all(sink, bytes)?;
            size = size.saturating_add(bytes.len() as u64);
        }
        self.size = size;
        Ok(seen)
    }

    /// Keeps what the get came to by these answers, and asks for the next bytes where it goes on.
    fn go_on(&mut self, seen: Seen, out: &mut Outbox) -> Result<(), NoMemory>
        ensures client { OnOk result (self.new.client ≡ (reads_next self.old.size (goes_on_after seen) self.old.client).client) }
        ensures size { self.new.size ≡ self.old.size }
        ensures last { self.new.last ≡ self.old.last }
        ensures outcome { self.new.outcome ≡ first_outcome self.old.outcome (seen_outcome seen) }
        ensures sends { OnOk result (out.new.sends.items ≡ out.old.sends.items ++ records_of (reads_next self.old.size (goes_on_after seen) self.old.client)) }
    {
        self.outcome = self.outcome.or(seen.outcome());
        read_on(&mut self.client, self.size, seen, out)
    }
}

/// Asks for the next bytes, from this place on, where some came and it goes on behind them.
fn read_on(client: &mut Client, at: u64, seen: Seen, out: &mut Outbox) -> Result<(), NoMemory>
    ensures { OnOk result (HasStepped (reads_next at (goes_on_after seen) client.old.client) out.old client.new.client out.new) }
{
    if seen.goes_on() {
        return client.read(at, PIECE_SIZE, out);
    }
    Ok(())
}

impl Node for GetNode {
    ghost State = { GetValue };

    ghost state = { λ n. n };

    ghost rule = { get_rule };

    ghost excuses = { λ _ _. false };

    ghost is_usable = { λ _. ⊤ };

    ghost keeps = { λ _ _ _ _. ⊤ };

    ghost leaves = { LeavesNothing };

    ghost stood = { λ _ _ _ _ _ _. tt };

    ghost turned = { λ _ _ _ _ _. tt };

    /// The bytes that came are written before the next are asked for.
    fn take<K: Sink, D: Disk>(
        &mut self,
        moment: u64,
        arrival: Arrival,
        out: &mut Outbox,
        sink: &mut K,
        _disk: &mut D,
        _spare: &mut D,
    ) -> Result<bool, EventFault> {
        let last = self.last;
        if client_does(&mut self.client, last, moment, arrival, out).is_err() {
            return Err(EventFault::NoMemory);
        }
        self.last = Some(moment);
        let seen = match self.take_answers(sink) {
            Ok(seen) => seen,
            Err(failed) => return Err(EventFault::of_sink(failed)),
        };
        if self.go_on(seen, out).is_err() {
            return Err(EventFault::NoMemory);
        }
        Ok(false)
    }

    fn has_waiting(&self) -> bool {
        false
    }

    /// It remembers nothing.
    fn settle<D: Disk>(&mut self, _disk: &mut D, _spare: &mut D) -> Result<(), Failed> {
        Ok(())
    }

    fn outcome(&self) -> Option<Result<(), FailCause>> {
        self.outcome
    }

    fn is_server(&self) -> bool {
        false
    }

    fn more_at_once(&self) -> u32 {
        0
    }
}

/// Gets the file of this name, by the client and at the metadata server of the configuration, and writes its bytes to
/// the sink. The clock is asked for the moment, in seconds, which tells this start of the client from the next. Then
/// the link is opened, and over it the file is opened and read, a piece of 65,536 bytes at a time, until its end
/// (RFC 8881), within as many arrivals as the configuration has turns. A piece is written before the next is asked for.
///
/// `NodeEnd::Done` is that the end was read and all is written, and `NodeEnd::Failed` says of the first request that was
/// not done why. `NodeEnd::WriteFault` is a fault of the sink, and `NodeEnd::LinkFault` one of the link in opening it or
/// in asking for what comes; nothing else is. `NodeEnd::Turns` is that the end was not read. For want of memory less may
/// have been sent than the client sends. However it ends, the sink has a beginning of what was read, and what the client
/// sent went to the streams that take it.
pub fn run_get<L: Link, C: Clock, K: Sink>(
    alloc: Global,
    config: &Config,
    name: &str,
    link: &mut L,
    clock: &mut C,
    sink: &mut K,
) -> NodeEnd
    requires { length name.now ≤ 255 }
    ensures told { GetsFile config.now name.now (L.opened link.old) (beside (L.coming link.old) (L.sent link.old) (C.coming clock.old) (C.moment clock.old) (K.held sink.old)) result (L.opened link.new) (beside (L.coming link.new) (L.sent link.new) (C.coming clock.new) (C.moment clock.new) (K.held sink.new)) }
    ensures faults { L.faults link.new ≡ link_faults result (L.faults link.old) }
    ensures writes { K.faults sink.new ≡ sink_faults result (K.faults sink.old) }
    ensures keeps { disk_faults result 0 ≡ 0 }
    ensures given { L.has_given link.new }
{
    let moment = clock.now();
    let mut out = Outbox::new(alloc);
    let Ok(mut node) = GetNode::begin(alloc, config.own, moment, name, &mut out) else {
        link.finish();
        return NodeEnd::NoMemory;
    };
    if let Err(failed) = link.open(config, Role::Client) {
        link.finish();
        return NodeEnd::of_link(failed);
    }
    serve_node(
        alloc,
        config.turns,
        out.sends,
        &mut node,
        link,
        clock,
        sink,
        &mut NoDisk,
        &mut NoDisk,
    )
}
