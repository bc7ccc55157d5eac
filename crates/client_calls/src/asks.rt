//! What is asked of the metadata server next.

ghost use Rattle.std.specs.Prelude.{◌≡◌};
ghost use Rattle.client_calls.specs.ClientCalls.{is_ending, is_settled, return_ask, due_ask, may_ask};

use client_mds_calls::MdsAsk;
use client_state::{LayoutStage, State};
use mirror_writer::Writer;

/// LAYOUTRETURN waits for the commits of the mirrors that have not failed.
fn is_ending(stage: LayoutStage) -> bool
    ensures { result ≡ is_ending stage }
{
    match stage {
        LayoutStage::Writing => false,
        LayoutStage::Ending => true,
        LayoutStage::Deferred => false,
        LayoutStage::Returning => false,
    }
}

/// Each mirror that has not failed is committed, or every mirror has failed.
fn is_settled(writer: &Writer) -> bool
    ensures { result ≡ is_settled writer.now }
{
    writer.rest_committed() || writer.has_no_mirror()
}

/// LAYOUTRETURN is due once each mirror that has not failed is committed, or every mirror failed.
fn return_ask(client: &State) -> Option<MdsAsk>
    ensures { result ≡ return_ask client.now.layout }
{
    let Some(layout) = &client.layout else {
        return None;
    };
    if is_ending(layout.stage) && is_settled(&layout.writer) {
        return Some(MdsAsk::LayoutReturn);
    }
    None
}

/// What goes out anew comes first, then the layout's return, then what the head of the queue wants, which is nothing
/// while the client waits for a tick.
pub fn due_ask(client: &State, wants: Option<MdsAsk>) -> Option<MdsAsk>
    ensures { result ≡ due_ask wants client.now }
{
    if let Some(ask) = client.again {
        return Some(ask);
    }
    if let Some(ask) = return_ask(client) {
        return Some(ask);
    }
    if client.waits {
        return None;
    }
    wants
}

/// One compound is outstanding at a time, and none goes out without a number.
pub fn may_ask(client: &State) -> bool
    ensures { result ≡ may_ask client.now client.now.asked }
{
    if client.asked.is_some() {
        return false;
    }
    client.next_xid != 0
}
