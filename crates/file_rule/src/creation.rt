//! The files that are made at data servers for a new file.

use cluster_model::{CallStage, Mirror};

/// The making of one mirror of a new file: the data server, the number in the name there, where its CREATE stands, and
/// the mirror once it is made.
#[derive(Clone, Copy, Debug, Default, PartialEq, Eq)]
pub struct Creation {
    pub server: u32,
    pub name: u64,
    pub stage: CallStage,
    pub made: Option<Mirror>,
}
