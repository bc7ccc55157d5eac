//! Servers and links over memory, and over sockets. There are tests alone.
#![tactic(auto)]

#[cfg(test)]
mod link_tests;
#[cfg(test)]
mod memory;
#[cfg(test)]
mod server_tests;
#[cfg(test)]
mod tcp_tests;
