//! Whether a journal is kept.

/// Whether the entries of a step are made.
#[derive(Clone, Copy, Debug, PartialEq, Eq)]
pub enum Logging {
    /// They are, with bytes of their own.
    On,
    /// They are not, since nobody keeps them.
    Off,
}
