//! A disk that is one file of the system.
#![tactic(auto)]

mod disk;

pub use disk::FileDisk;
