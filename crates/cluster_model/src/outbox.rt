//! What a step puts out.

ghost use Rattle.std.specs.Prelude.{◌≡◌, []};

use crate::entry::Entry;
use crate::ids::NodeId;
use ff_xdr::Data;
use std::alloc::Global;

/// The entries of the journal and the records for other nodes that steps put out, in order.
#[derive(Debug, Drop)]
pub struct Outbox {
    pub entries: Vec<Entry>,
    pub sends: Vec<(NodeId, Data)>,
}

impl Outbox {
    /// Nothing; takes no memory.
    pub fn new(alloc: Global) -> Outbox
        ensures entries { result.entries.items ≡ [] }
        ensures sends { result.sends.items ≡ [] }
    {
        Outbox {
            entries: Vec::new(alloc),
            sends: Vec::new(alloc),
        }
    }
}
