//! What each event does to the machines of a cluster and to its world, as definitions.
#![tactic(auto)]
