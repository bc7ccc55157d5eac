//! A data server without its files.

use crate::names::Names;
use cluster_model::{Tick, Times};

/// All of a data server but its files.
#[derive(Drop)]
pub struct ServerBase {
    pub number: u32,
    /// The last tick that was given, of count 0 where none was in this boot.
    pub clock: Tick,
    /// The root's times.
    pub root: Times,
    /// The files' names in the root, in the files' order.
    pub names: Names,
    /// The shown bytes of all files together.
    pub total: u64,
}
