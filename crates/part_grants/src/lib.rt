//! What a metadata server answers with, as rows play it: results of a compound as they come, and what grants a layout.
#![tactic(auto)]

mod layouts;
mod results;

pub use layouts::LayoutsRows;
pub use results::ResultsRows;
