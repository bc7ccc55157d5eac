//! How much of a trace is printed.

/// How much of a trace is printed.
#[derive(Clone, Copy, Debug, PartialEq, Eq)]
pub enum Mode {
    /// Every entry, whole.
    Full,
    /// Without packets, deliveries, timeouts, holds and ticks; of long data the first bytes.
    Brief,
    /// Of each kind of entry that came, how many there are.
    Count,
}
