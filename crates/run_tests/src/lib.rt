//! Runs over lines, and the sources and sinks that they stand on. There are tests alone.
#![tactic(auto)]

#[cfg(test)]
mod endless_tests;
#[cfg(test)]
mod lines_tests;
#[cfg(test)]
mod repeat_tests;
#[cfg(test)]
mod standard_tests;
#[cfg(test)]
mod stream_tests;
