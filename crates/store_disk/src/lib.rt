//! A disk: what a read gives, what a crash may leave, and disks in memory.
#![tactic(auto)]

mod crash;
mod disk;
mod lent;
mod memory;
mod nothing;
mod overlay;
mod recorded;
mod schedule;
mod sure;

pub use disk::Disk;
pub use memory::MemoryDisk;
pub use nothing::NoDisk;
pub use sure::SureDisk;
