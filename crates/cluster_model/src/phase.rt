//! Where a file of the cluster stands at the metadata server, and why a period of writing ends and a mirror leaves.

ghost use Rattle.std.specs.Prelude.{◌≡◌};
ghost use Rattle.cluster_model.specs.Phases.{is_clean};

/// The phase of a file.
#[derive(Clone, Copy, Debug, PartialEq, Eq)]
pub enum Phase {
    /// Its mirrors are being made.
    Making,
    /// Nobody holds it, and its mirrors agree.
    Free,
    /// It has a write holder.
    Held,
    /// The period's user is being shut out at every mirror.
    Fencing,
    /// The mirror from which the others are to be copied is being committed.
    Settling,
    /// The others are being copied.
    Copying,
}

/// Why a period ended (RFC 8435, section 2.2; RFC 8881, section 12.5.5). After the first two the mirrors agree.
#[derive(Clone, Copy, Debug, PartialEq, Eq)]
pub enum EndCause {
    /// The holder returned the layout, with all of it committed at each mirror that it did not report.
    Returned,
    /// The metadata server's own write is done.
    Own,
    /// Every mirror was reported.
    AllReported,
    /// A recall was not answered in time.
    Recalled,
    /// The holder's lease ended.
    Lease,
    /// The holder knows of no such layout.
    NoLayout,
    /// The holder started anew, or was taken out.
    ClientGone,
    /// The holder returned all that it had, without naming the layout.
    ReturnedAll,
}

impl EndCause {
    /// The mirrors agree then, but for those that were reported.
    pub fn is_clean(self) -> bool
        ensures { result ≡ is_clean self }
    {
        matches!(self, EndCause::Returned | EndCause::Own)
    }
}

/// Why a mirror left the live list.
#[derive(Clone, Copy, Debug, PartialEq, Eq)]
pub enum LeftCause {
    /// The holder reported it.
    Reported,
    /// A call to it was answered by this status (RFC 1813, section 2.6).
    Error(u32),
    /// One call to it timed out three times.
    Timeouts,
    /// It showed another ctime than the one that was last seen, too often in one fence.
    Unsynced,
}
