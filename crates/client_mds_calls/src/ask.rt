//! What was asked of a metadata server, as far as the meaning of its answer goes by it.

/// The kind of a call, with what its answer is held against.
#[derive(Clone, Copy, Debug, PartialEq, Eq)]
pub enum MdsAsk {
    ExchangeId,
    CreateSession,
    ReclaimComplete,
    Open,
    LayoutGet,
    /// The addresses of so many data servers.
    DeviceInfo { count: u32 },
    Write,
    /// At most `count` bytes from the byte `at` on.
    Read { at: u64, count: u32 },
    LayoutReturn,
    Renew,
}
