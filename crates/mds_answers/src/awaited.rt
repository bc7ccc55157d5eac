//! Whether a call is waited for.

ghost use Rattle.std.specs.Prelude.{◌≡◌};
ghost use Rattle.mds_rule.specs.MdsStates.{served};
ghost use Rattle.mds_rule.specs.Answers.{server_number, is_file_out, has_read_out, has_write_out, is_awaited_by};

use cluster_model::{FileId, NodeId};
use mds_rule::Waiter;
use mds_state::State;

/// The number of a data server; 0 of another node.
fn server_number(node: NodeId) -> u32
    ensures { result ≡ server_number node }
{
    match node {
        NodeId::Server(number) => number,
        _ => 0,
    }
}

/// The file waits for the call to this node under this number: one that it has under way.
fn is_file_out(state: &State, node: NodeId, xid: u32, file: FileId) -> bool
    ensures { result ≡ is_file_out node xid (served state.now file) }
{
    match state.files.get(file) {
        Some(served) => served.file.is_outstanding(server_number(node), xid),
        None => false,
    }
}

/// A READ of the file waits for the call under this number.
fn has_read_out(state: &State, xid: u32, file: FileId) -> bool
    ensures { result ≡ has_read_out xid (served state.now file) }
{
    match state.files.get(file) {
        Some(served) => served.has_read_out(xid),
        None => false,
    }
}

/// The file's own WRITE waits for the call under this number.
fn has_write_out(state: &State, xid: u32, file: FileId) -> bool
    ensures { result ≡ has_write_out xid (served state.now file) }
{
    match state.files.get(file) {
        Some(served) => served.has_write_out(xid),
        None => false,
    }
}

/// Whoever sent the call to this node under this number waits for it still: a call of what has ended is outstanding no more.
pub fn is_awaited(state: &State, node: NodeId, xid: u32, caller: Waiter) -> bool
    ensures { result ≡ is_awaited_by state.now node xid caller }
{
    match caller {
        Waiter::ForFile(file) => is_file_out(state, node, xid, file),
        Waiter::ForRead(file) => has_read_out(state, xid, file),
        Waiter::ForWrite(file) => has_write_out(state, xid, file),
        Waiter::ForRecall => state.recalls.is_outstanding(xid),
    }
}
