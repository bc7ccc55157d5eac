//! A compound while a metadata server runs it, and while it waits (RFC 8881, section 16.2.3).
#![tactic(auto)]

mod kept;
mod op_end;
mod refused;
mod run;

pub use kept::{KeptRun, KeptText};
pub use op_end::OpEnd;
pub use refused::refusal;
pub use run::{Progress, Run};
