//! `put`: bytes of a source become a file.

ghost use Rattle.std.specs.Prelude.{⊤, ◌≡◌, ◌≤◌, ◌∷◌, [], None, false, length};
ghost use Rattle.rpc_record.specs.Stream.{counted};
ghost use Rattle.line_runs.specs.Lines.{all_left};
ghost use Rattle.ff_node.specs.Serve.{LeavesNothing, beside, disk_faults, link_faults, sink_faults};
ghost use Rattle.user_nodes.specs.Users.{answers_taken};
ghost use Rattle.user_nodes.specs.Puts.{BeginsPut, PutValue, PutsFile, end_of_source, no_progress, put_outcome, put_rule, source_faults, with_answers};

use crate::asks::ask_put;
use crate::user::{client_does, done_or_failed, fresh_client};
use cluster_model::{FailCause, Outbox, UserAnswer};
use ff_node::{EventFault, NoSink, Node, NodeEnd, serve_node};
use line_runs::LineBuffer;
use mirror_client::Client;
use node_config::Config;
use node_link::{Arrival, Clock, Link, Role};
use rpc_record::{Failed, Sink, Source};
use std::alloc::Global;
use std::marker::Model;
use store_disk::{Disk, NoDisk};

/// Which answers came.
#[derive(Clone, Copy, Debug, PartialEq, Eq)]
pub(crate) struct Progress {
    /// The file is open.
    pub opened: bool,
    /// What was written is committed.
    pub committed: bool,
    /// The layout was given back.
    pub returned: bool,
    /// Why a request was not done, of the first that was not.
    pub failed: Option<FailCause>,
}

impl Progress {
    /// No answer came yet.
    fn new() -> Progress
        ensures { result ≡ no_progress }
    {
        Progress {
            opened: false,
            committed: false,
            returned: false,
            failed: None,
        }
    }

    /// Notes an answer.
    fn note(&mut self, answer: &UserAnswer)
        ensures { self.new ≡ with_answers self.old (answer.now ∷ []) }
    {
        match answer {
            UserAnswer::Opened(_) => self.opened = true,
            UserAnswer::Committed { .. } => self.committed = true,
            UserAnswer::Returned => self.returned = true,
            UserAnswer::Failed(cause) => self.failed = self.failed.or(Some(*cause)),
            UserAnswer::Written | UserAnswer::Bytes { .. } => {}
        }
    }

    /// What the put came to.
    fn outcome(&self) -> Option<Result<(), FailCause>>
        ensures { result ≡ put_outcome self.now }
    {
        done_or_failed(self.failed, self.opened && self.committed && self.returned)
    }
}

/// A client that was asked to put a file, with the last moment that it was given.
#[derive(Drop)]
pub(crate) struct PutNode {
    client: Client,
    progress: Progress,
    last: Option<u64>,
}

impl Model for PutNode {
    ghost use Rattle.user_nodes.specs.Puts.{PutValue};

    ghost Value = { PutValue };

    ghost view = { λ n. record { client = n.client.client; progress = n.progress; last = n.last } };
}

impl PutNode {
    /// Takes the client's answers, and notes them.
    fn take_answers(&mut self)
        ensures client { self.new.client ≡ answers_taken self.old.client }
        ensures progress { self.new.progress ≡ with_answers self.old.progress self.old.client.answers }
        ensures last { self.new.last ≡ self.old.last }
    {
        'answers: while let Some(answer) = self.client.answers() {
            self.progress.note(&answer);
        }
    }

    /// A new client that was asked to put all bytes that the buffer holds and the source has left, as the file of this
    /// name. The moment, in seconds, tells this start of it from the next. Its first records go to `out`.
    ///
    /// `Failed::Fault` is the source's, and `Failed::NoMemory` want of memory.
    fn begin<S: Source>(
        alloc: Global,
        own: u32,
        moment: u64,
        name: &str,
        buffer: &mut LineBuffer,
        source: &mut S,
        out: &mut Outbox,
    ) -> Result<PutNode, Failed>
        requires { length name.now ≤ 255 }
        ensures begins { BeginsPut own moment name.now (all_left buffer.old (S.left source.old)) out.old.sends.items result (all_left buffer.new (S.left source.new)) out.new.sends.items }
        ensures faults { S.faults source.new ≡ counted result (S.faults source.old) }
    {
        let Ok(mut client) = fresh_client(alloc, own, moment) else {
            return Err(Failed::NoMemory);
        };
        ask_put(alloc, &mut client, name, buffer, source, out)?;
        let mut node = PutNode {
            client,
            progress: Progress::new(),
            last: None,
        };
        node.take_answers();
        Ok(node)
    }
}

impl Node for PutNode {
    ghost State = { PutValue };

    ghost state = { λ n. n };

    ghost rule = { put_rule };

    ghost excuses = { λ _ _. false };

    ghost is_usable = { λ _. ⊤ };

    ghost keeps = { λ _ _ _ _. ⊤ };

    ghost leaves = { LeavesNothing };

    ghost stood = { λ _ _ _ _ _ _. tt };

    ghost turned = { λ _ _ _ _ _. tt };

    fn take<K: Sink, D: Disk>(
        &mut self,
        moment: u64,
        arrival: Arrival,
        out: &mut Outbox,
        _sink: &mut K,
        _disk: &mut D,
        _spare: &mut D,
    ) -> Result<bool, EventFault> {
        let last = self.last;
        if client_does(&mut self.client, last, moment, arrival, out).is_err() {
            return Err(EventFault::NoMemory);
        }
        self.last = Some(moment);
        self.take_answers();
        Ok(false)
    }

    fn has_waiting(&self) -> bool {
        false
    }

    /// It remembers nothing.
    fn settle<D: Disk>(&mut self, _disk: &mut D, _spare: &mut D) -> Result<(), Failed> {
        Ok(())
    }

    fn outcome(&self) -> Option<Result<(), FailCause>> {
        self.progress.outcome()
    }

    fn is_server(&self) -> bool {
        false
    }

    fn more_at_once(&self) -> u32 {
        0
    }
}

/// How a source that failed ends a node, or want of memory.
fn end_of_source(failed: Failed) -> NodeEnd
    ensures { result ≡ end_of_source failed }
{
    match failed {
        Failed::Fault => NodeEnd::ReadFault,
        Failed::NoMemory => NodeEnd::NoMemory,
    }
}

/// Puts the bytes that the buffer holds, and behind them those of the source, as the file of this name, by the client
/// and at the metadata server of the configuration. The clock is asked for the moment, in seconds, which tells this
/// start of the client from the next. Then all is read, of a source at most one piece of 65,536 bytes more than a file
/// may have. Then the link is opened, and over it the file is opened, written to all of its mirrors, committed, and its
/// layout given back (RFC 8881, RFC 8435), within as many arrivals as the configuration has turns.
///
/// `NodeEnd::Done` is that all of this was answered, and `NodeEnd::Failed` says of the first request that was not done
/// why. `NodeEnd::ReadFault` is a fault of the source, and `NodeEnd::LinkFault` one of the link in opening it or in
/// asking for what comes; nothing else is. `NodeEnd::Turns` is that an answer is missing. For want of memory less may
/// have been sent than the client sends. However it ends, what it sent went to the streams that take it.
pub fn run_put<S: Source, L: Link, C: Clock>(
    alloc: Global,
    config: &Config,
    name: &str,
    buffer: &mut LineBuffer,
    source: &mut S,
    link: &mut L,
    clock: &mut C,
) -> NodeEnd
    requires { length name.now ≤ 255 }
    ensures told { PutsFile config.now name.now (all_left buffer.old (S.left source.old)) (L.opened link.old) (beside (L.coming link.old) (L.sent link.old) (C.coming clock.old) (C.moment clock.old) None) result (all_left buffer.new (S.left source.new)) (L.opened link.new) (beside (L.coming link.new) (L.sent link.new) (C.coming clock.new) (C.moment clock.new) None) }
    ensures faults { L.faults link.new ≡ link_faults result (L.faults link.old) }
    ensures reads { S.faults source.new ≡ source_faults result (S.faults source.old) }
    ensures writes { sink_faults result 0 ≡ 0 }
    ensures keeps { disk_faults result 0 ≡ 0 }
    ensures given { L.has_given link.new }
{
    let moment = clock.now();
    let mut out = Outbox::new(alloc);
    let mut node = match PutNode::begin(alloc, config.own, moment, name, buffer, source, &mut out) {
        Ok(node) => node,
        Err(failed) => {
            link.finish();
            return end_of_source(failed);
        }
    };
    if let Err(failed) = link.open(config, Role::Client) {
        link.finish();
        return NodeEnd::of_link(failed);
    }
    serve_node(
        alloc,
        config.turns,
        out.sends,
        &mut node,
        link,
        clock,
        &mut NoSink,
        &mut NoDisk,
        &mut NoDisk,
    )
}
