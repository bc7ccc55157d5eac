//! The world of a script: its machines, and what an event does to them.
#![tactic(auto)]

mod world;

pub use world::BareWorld;
