//! What joins a node to others: which node is on which connection, when a call is given up, when time passes, and clocks.
#![tactic(auto)]

mod callees;
mod clock;
mod link;
mod memory_link;
mod network_link;
mod silence;
mod sure_link;

pub use clock::{Clock, MemoryClock, SystemClock};
pub use link::{Arrival, Link, Opening, Role};
pub use memory_link::MemoryLink;
pub use network_link::NodeLink;
pub use silence::Silence;
pub use sure_link::SureLink;
