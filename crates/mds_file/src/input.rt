//! What comes to a file.

use cluster_model::{Cred, DsReply, EndCause, LeftCause, MirrorId, Reported, Tick};

/// An input of the table of phases, or an answer or a timeout of a call that the file has under way.
#[derive(Clone, Copy, Debug)]
pub enum FileInput<'a> {
    /// A client asks for a layout for writing (RFC 8881, section 18.43).
    AsksLayout {
        client: u32,
    },
    /// A WRITE through the metadata server (RFC 8881, section 18.32).
    OwnWrite {
        at: u64,
        bytes: &'a [u8],
    },
    /// The layout is to be recalled.
    Recall,
    /// A client returns the layout under this uid, and reports the mirrors at these places (RFC 8881, section 18.44).
    Returns {
        client: u32,
        claimed: Cred,
        reported: Reported,
    },
    /// The period ends in another way than by a return or an own write.
    Revokes(EndCause),
    /// The own write of these bytes is over. For each place in the live list, why it failed there, if it did.
    OwnEnds {
        causes: [Option<LeftCause>; 4],
        at: u64,
        bytes: &'a [u8],
    },
    /// Mirrors are to be added.
    Resilver,
    /// An answer to the outstanding call of this number.
    Answers {
        xid: u32,
        reply: DsReply<'a>,
    },
    /// A timeout of it.
    TimesOut(u32),
    /// Time passes.
    Ticks,
    /// An answer to an own write's call showed this ctime at a mirror.
    Sees {
        id: MirrorId,
        seen: Tick,
    },
}
