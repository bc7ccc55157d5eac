//! What a node meets in an event.

ghost use Rattle.std.specs.Prelude.{◌≡◌};
ghost use Rattle.ff_node.specs.Serve.{fault_of_disk, fault_of_sink};

use rpc_record::Failed;
use thiserror::Error;

/// Why an event was not all done.
#[derive(Clone, Copy, Debug, PartialEq, Eq, Error)]
pub enum EventFault {
    /// The sink failed.
    #[error("the sink failed")]
    Sink,
    /// A disk failed.
    #[error("a disk failed")]
    Disk,
    /// Memory was wanted.
    #[error("memory was wanted")]
    NoMemory,
}

impl EventFault {
    /// How a failed call of a sink ends an event.
    pub fn of_sink(failed: Failed) -> EventFault
        ensures { result ≡ fault_of_sink failed }
    {
        match failed {
            Failed::Fault => EventFault::Sink,
            Failed::NoMemory => EventFault::NoMemory,
        }
    }

    /// How a failed call of a disk ends an event.
    pub fn of_disk(failed: Failed) -> EventFault
        ensures { result ≡ fault_of_disk failed }
    {
        match failed {
            Failed::Fault => EventFault::Disk,
            Failed::NoMemory => EventFault::NoMemory,
        }
    }
}
