//! What happens next in a cluster.

use cluster_model::{FileId, NodeId};
use ff_script::{Digits, PieceList};

/// What happens next in a cluster. Files and clients are named by their numbers, from 1. A place in a file is at most 67,108,864.
#[derive(Debug, Drop)]
pub enum ClusterEvent<'a> {
    /// The packet of this number comes.
    DeliverPacket(u32),
    /// The packet of this place, from 1, among those from the first machine to the second comes.
    DeliverBetween {
        from: NodeId,
        to: NodeId,
        place: u32,
    },
    /// The packets that never came and are not held come, the lowest first, until there is none.
    Flow,
    /// Packets from the first machine to the second wait in a flow.
    Hold {
        from: NodeId,
        to: NodeId,
    },
    /// They wait no longer.
    Pass {
        from: NodeId,
        to: NodeId,
    },
    /// The machine's oldest outstanding call to the other times out.
    Timeout {
        node: NodeId,
        to: NodeId,
    },
    /// So many seconds pass, 1 to 1,000.
    Tick(u32),
    /// The user of a client opens the file of this name, of 1 to 255 bytes.
    Open {
        client: u32,
        name: &'a str,
    },
    /// The user writes 1 to 65,536 bytes at a place, to the mirrors.
    Write {
        client: u32,
        at: u64,
        bytes: Digits<'a>,
    },
    /// The same, through the metadata server.
    Through {
        client: u32,
        at: u64,
        bytes: Digits<'a>,
    },
    /// The user writes 1 to 65,536 equal bytes at a place.
    Fill {
        client: u32,
        at: u64,
        count: u32,
        byte: u8,
    },
    /// The user commits.
    Commit(u32),
    /// The user reads 1 to 65,536 bytes from a place on.
    Read {
        client: u32,
        at: u64,
        count: u32,
    },
    /// The user returns the layout.
    Return(u32),
    /// The client leaves the protocol.
    Rogue(u32),
    /// A client that left writes 1 to 65,536 bytes to the mirror at this place of its layout, from 1.
    Stray {
        client: u32,
        mirror: u32,
        at: u64,
        bytes: Digits<'a>,
    },
    /// The client starts anew.
    Reboot(u32),
    /// The data server starts again, with these pieces of its pending writes on its disk.
    Restart {
        server: u32,
        pieces: PieceList<'a>,
    },
    /// The layout of a file is recalled.
    Recall(FileId),
    /// Mirrors are added to a file where some are missing.
    Resilver(FileId),
    /// The live mirrors of a file are put into the journal.
    Audit(FileId),
}
