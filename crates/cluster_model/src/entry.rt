//! What a journal holds.

use crate::answer::UserAnswer;
use crate::ids::{Cred, FileId, MirrorId, NodeId};
use crate::mirror_ids::MirrorIds;
use crate::phase::{EndCause, LeftCause, Phase};
use crate::piece::Pieces;
use ff_xdr::Data;

/// One entry of the journal.
#[derive(Debug, Drop)]
pub enum Entry {
    /// A packet was sent: its number, its two ends and what it holds.
    Packet {
        number: u64,
        from: NodeId,
        to: NodeId,
        bytes: Data,
    },
    /// The packet of this number arrived.
    Delivered {
        number: u64,
    },
    /// A node's call timed out.
    TimedOut {
        node: NodeId,
        xid: u32,
    },
    /// From now on packets between the two wait.
    Hold {
        from: NodeId,
        to: NodeId,
    },
    /// They wait no longer.
    Pass {
        from: NodeId,
        to: NodeId,
    },
    /// So many seconds passed.
    Tick {
        seconds: u32,
    },
    /// A period of writing began: the file, the user that it is granted, and who holds it.
    Granted {
        file: FileId,
        cred: Cred,
        holder: NodeId,
    },
    /// A holder took a write of its user.
    Sent {
        file: FileId,
        cred: Cred,
        at: u64,
        bytes: Data,
    },
    /// A client that left the protocol sent a write under a user that it was granted.
    Rogue {
        file: FileId,
        cred: Cred,
        at: u64,
        bytes: Data,
    },
    /// A client left the protocol.
    Turned {
        client: u32,
    },
    /// A write counts as committed to its user.
    Told {
        file: FileId,
        cred: Cred,
        at: u64,
        bytes: Data,
    },
    /// A period ended.
    Ended {
        file: FileId,
        cred: Cred,
        cause: EndCause,
    },
    /// A mirror left the live list of a file.
    Left {
        file: FileId,
        mirror: MirrorId,
        cause: LeftCause,
    },
    /// A copied mirror came into the live list, in another's place or at the end.
    Swapped {
        file: FileId,
        old: Option<MirrorId>,
        new: MirrorId,
    },
    /// The old user is shut out at these mirrors, which belong to the new one.
    Fenced {
        file: FileId,
        old: Cred,
        new: Cred,
        live: MirrorIds,
    },
    /// Nobody holds a file, and these mirrors of it agree.
    Free {
        file: FileId,
        live: MirrorIds,
    },
    /// Bytes were written to a mirror, at a place of the file, by a user.
    Applied {
        mirror: MirrorId,
        cred: Cred,
        at: u64,
        bytes: Data,
    },
    /// All that was written to a mirror is on its disk.
    Committed {
        mirror: MirrorId,
    },
    /// A mirror was made for a user, or given to one.
    Owner {
        mirror: MirrorId,
        cred: Cred,
    },
    /// A data server was started again. These pieces of its pending writes had reached its disk.
    Restarted {
        server: u32,
        pieces: Pieces,
    },
    /// The metadata server answered a READ by this status (RFC 8881, section 15.1), with these bytes.
    ReadAnswer {
        file: FileId,
        status: u32,
        bytes: Data,
    },
    /// A READ of a mirror failed, which the call of this number asked for.
    Failed {
        mirror: MirrorId,
        xid: u32,
    },
    /// A layout was asked for while the file was in this phase.
    Later {
        file: FileId,
        phase: Phase,
    },
    /// A client answered its user.
    Answer {
        client: u32,
        answer: UserAnswer,
    },
    /// A mirror shows so many bytes, of which these are the first.
    Audit {
        file: FileId,
        mirror: MirrorId,
        length: u64,
        bytes: Data,
    },
    /// A client started anew.
    Rebooted {
        client: u32,
    },
}
