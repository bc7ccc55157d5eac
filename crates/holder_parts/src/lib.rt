//! The part of those who hold a file, told by the journal of a cluster with its packets.
#![tactic(auto)]
