//! A call that went out, and what its record says of it.

ghost use Rattle.std.specs.Prelude.{◌≡◌, ◌+◌, ◌≤◌, ◌&&◌, true, length};
ghost use Rattle.rpc_record.specs.Calls.{word_of};
ghost use Rattle.record_link.specs.Messages.{is_call_record};
ghost use Rattle.waiting_calls.specs.LinkCalls.{replied_number, is_link_call, is_read_of, is_read_record, is_read_to, later, new_link_call};

use cluster_model::NodeId;
use record_link::is_reply_record;
use rpc_record::NFS_PROGRAM;

/// A call is given up so many milliseconds behind its last sending.
pub(crate) const CALL_LIMIT: u64 = 2_000;

/// The version of NFS that data servers speak.
pub(crate) const DATA_VERSION: u32 = 3;

/// The number of its procedure READ (RFC 1813, section 3.3.6).
pub(crate) const READ_PROCEDURE: u32 = 6;

/// A call that went out.
#[derive(Clone, Copy, Debug, PartialEq, Eq)]
pub struct LinkCall {
    /// The node that is called.
    pub node: NodeId,
    /// The number of the call.
    pub xid: u32,
    /// When it is given up, in milliseconds.
    pub due: u64,
    /// It is a READ of a data server.
    pub is_data_read: bool,
}

/// The moment at which what goes now is given up.
fn later(now: u64) -> u64
    ensures { result ≡ later now }
{
    now.saturating_add(CALL_LIMIT)
}

/// The word at a place.
#[tactic(auto, unfolding(rpc_record::specs::Calls::word_of))]
fn word_at(bytes: &[u8], at: usize) -> u32
    requires { at + 4 ≤ length bytes.now }
    ensures { result ≡ word_of bytes.now at }
{
    let word = &bytes[at..at + 4];
    u32::from_be_bytes([word[0], word[1], word[2], word[3]])
}

/// Whether a call is a READ of NFSv3.
fn is_read_record(message: &[u8]) -> bool
    ensures { result ≡ is_read_record message.now }
{
    if message.len() < 24 {
        return false;
    }
    word_at(message, 12) == NFS_PROGRAM
        && (word_at(message, 16) == DATA_VERSION && word_at(message, 20) == READ_PROCEDURE)
}

/// Whether a call that goes to a node is a READ of a data server.
fn is_read_to(node: NodeId, message: &[u8]) -> bool
    ensures { result ≡ is_read_to node message.now }
{
    match node {
        NodeId::Mds => false,
        NodeId::Server(_) => is_read_record(message),
        NodeId::Client(_) => false,
    }
}

/// The number of the call that a record replies to, where it is a reply.
pub fn replied_number(message: &[u8]) -> Option<u32>
    ensures { result ≡ replied_number message.now }
{
    if is_reply_record(message) {
        Some(word_at(message, 0))
    } else {
        None
    }
}

impl LinkCall {
    /// The call of this record, which goes to a node now.
    pub fn new(node: NodeId, message: &[u8], now: u64) -> LinkCall
        requires { is_call_record message.now ≡ true }
        ensures { result ≡ new_link_call now node (word_of message.now 0) (is_read_to node message.now) }
    {
        LinkCall {
            node,
            xid: word_at(message, 0),
            due: later(now),
            is_data_read: is_read_to(node, message),
        }
    }

    /// It is the call of this number to this node.
    pub(crate) fn is_link_call(&self, node: NodeId, xid: u32) -> bool
        ensures { result ≡ is_link_call node xid self.now }
    {
        self.node == node && self.xid == xid
    }

    /// It is a READ of the data server of this number.
    pub(crate) fn is_read_of(&self, number: u32) -> bool
        ensures { result ≡ is_read_of number self.now }
    {
        self.is_data_read && self.node == NodeId::Server(number)
    }
}
