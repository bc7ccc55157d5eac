//! How nodes end.

ghost use Rattle.std.specs.Prelude.{◌≡◌};
ghost use Rattle.ff_node.specs.Serve.{end_of_event, end_of_link, end_of_outcome, last_end};

use crate::fault::EventFault;
use cluster_model::FailCause;
use rpc_record::Failed;

/// Why a node ended.
#[derive(Clone, Copy, Debug, PartialEq, Eq)]
pub enum NodeEnd {
    /// What it was to do is done; of a server, all turns were taken, or the link is closed.
    Done,
    /// The source failed.
    ReadFault,
    /// The sink failed.
    WriteFault,
    /// A disk failed.
    DiskFault,
    /// The disks' log is bad at this byte of the file that has it.
    BadLog(u64),
    /// The boot number in the disks' log is the last that there is.
    BootsSpent,
    /// The link met a fault.
    LinkFault,
    /// Memory was wanted.
    NoMemory,
    /// A request of the user was not done.
    Failed(FailCause),
    /// All turns were taken, or the link is closed, and an answer is missing.
    Turns,
}

impl NodeEnd {
    /// How a node ends that ended by itself.
    pub(crate) fn of_outcome(outcome: Result<(), FailCause>) -> NodeEnd
        ensures { result ≡ end_of_outcome outcome }
    {
        match outcome {
            Ok(()) => NodeEnd::Done,
            Err(cause) => NodeEnd::Failed(cause),
        }
    }

    /// How a node ends to which nothing more comes.
    pub(crate) fn of_last(is_server: bool) -> NodeEnd
        ensures { result ≡ last_end is_server }
    {
        if is_server {
            NodeEnd::Done
        } else {
            NodeEnd::Turns
        }
    }

    /// How a failed call of a link ends a node.
    pub fn of_link(failed: Failed) -> NodeEnd
        ensures { result ≡ end_of_link failed }
    {
        match failed {
            Failed::Fault => NodeEnd::LinkFault,
            Failed::NoMemory => NodeEnd::NoMemory,
        }
    }

    /// How an event that failed ends a node.
    pub(crate) fn of_event(fault: EventFault) -> NodeEnd
        ensures { result ≡ end_of_event fault }
    {
        match fault {
            EventFault::Sink => NodeEnd::WriteFault,
            EventFault::Disk => NodeEnd::DiskFault,
            EventFault::NoMemory => NodeEnd::NoMemory,
        }
    }
}
