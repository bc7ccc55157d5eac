//! What comes to a client, and what comes of its answers.

ghost use Rattle.std.specs.Prelude.{◌≡◌, ◌++◌, IfOk, OnOk};
ghost use Rattle.client_state.specs.ClientStates.{fresh_client};
ghost use Rattle.client_state.specs.QueueSteps.{HasStepped};
ghost use Rattle.ff_node.specs.Nodes.{event_at};
ghost use Rattle.user_nodes.specs.Users.{client_does, client_hears, client_passes, done_or_failed, records_of, says_quiet, time_passes};

use cluster_model::{FailCause, Outbox};
use ff_node::is_new_moment;
use ff_xdr::NoMemory;
use mirror_client::Client;
use node_link::Arrival;
use std::alloc::Global;

/// The number of a client's first call.
const FIRST_XID: u32 = 1;

/// A new client, whose start is told from the next by this moment, in seconds.
pub(crate) fn fresh_client(alloc: Global, own: u32, moment: u64) -> Result<Client, NoMemory>
    ensures { IfOk result (λ client. client.client ≡ fresh_client own moment 1) }
{
    Client::new(alloc, own, moment.to_be_bytes(), FIRST_XID)
}

/// A record came, or the call of this number timed out, at a moment in seconds.
fn client_hears(
    client: &mut Client,
    moment: u64,
    arrival: Arrival,
    out: &mut Outbox,
) -> Result<(), NoMemory>
    ensures { OnOk result (HasStepped (client_hears moment arrival client.old.client) out.old client.new.client out.new) }
{
    match arrival {
        Arrival::Record { from, bytes } => client.on_record(from, bytes.bytes(), moment, out),
        Arrival::TimedOut { node, xid } => client.on_timeout(node, Some(xid), out),
        Arrival::Quiet => Ok(()),
        Arrival::Closed => Ok(()),
    }
}

/// Nothing came for a while.
fn says_quiet(arrival: &Arrival) -> bool
    ensures { result ≡ says_quiet arrival.now }
{
    match arrival {
        Arrival::Quiet => true,
        Arrival::Record { .. } => false,
        Arrival::TimedOut { .. } => false,
        Arrival::Closed => false,
    }
}

/// Whether time passes for a client: where the moment, in seconds, is above the last that it was given, and where nothing
/// came for a while.
fn time_passes(last: Option<u64>, moment: u64, arrival: &Arrival) -> bool
    ensures { result ≡ time_passes last (event_at moment arrival.now) }
{
    is_new_moment(last, moment) || says_quiet(arrival)
}

/// Time passes for a client to a moment in seconds, where it does.
fn client_passes(
    client: &mut Client,
    last: Option<u64>,
    moment: u64,
    arrival: &Arrival,
    out: &mut Outbox,
) -> Result<(), NoMemory>
    ensures { OnOk result (HasStepped (client_passes last (event_at moment arrival.now) client.old.client) out.old client.new.client out.new) }
{
    if !time_passes(last, moment, arrival) {
        return Ok(());
    }
    client.tick(moment, out)
}

/// Takes an arrival at a moment in seconds, by a client that was last given this moment: time passes, and then the record
/// or the timeout is taken.
pub(crate) fn client_does(
    client: &mut Client,
    last: Option<u64>,
    moment: u64,
    arrival: Arrival,
    out: &mut Outbox,
) -> Result<(), NoMemory>
    ensures client { OnOk result (client.new.client ≡ (client_does last (event_at moment arrival) client.old.client).client) }
    ensures sends { OnOk result (out.new.sends.items ≡ out.old.sends.items ++ records_of (client_does last (event_at moment arrival) client.old.client)) }
{
    client_passes(client, last, moment, &arrival, out)?;
    client_hears(client, moment, arrival, out)
}

/// What a node came to: a request failed by this, or, if none did, all is done or something is still to come.
pub(crate) fn done_or_failed(
    failed: Option<FailCause>,
    is_done: bool,
) -> Option<Result<(), FailCause>>
    ensures { result ≡ done_or_failed failed is_done }
{
    match failed {
        Some(cause) => Some(Err(cause)),
        None => is_done.then_some(Ok(())),
    }
}
