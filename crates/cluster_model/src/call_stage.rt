//! Where one call of the metadata server to a data server stands.

/// A call that is sent until it is answered or given up. It is given up for an error or for three timeouts, and by
/// nobody where no other call could take its place: then it is kept until the next tick, and sent again.
#[derive(Clone, Copy, Debug, Default, PartialEq, Eq)]
pub enum CallStage {
    /// It waits to be sent.
    #[default]
    Waits,
    /// It is outstanding under this number, and timed out so often, at most twice.
    Out { xid: u32, timeouts: u32 },
    /// It timed out three times, and is outstanding still; at the next tick the same record is sent again.
    KeptOut { xid: u32 },
    /// Its answer did not do; at the next tick another call waits to be sent.
    KeptBack,
    /// It was answered as wanted.
    Done,
    /// It was given up.
    GivenUp,
}
