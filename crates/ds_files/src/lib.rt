//! A data server of NFS version 3 (RFC 1813): its files, and its answer to every record.
#![tactic(auto)]

mod carry;
mod decision;
mod entered;
mod laws;
mod logging;
mod receive;
mod received;
mod record;
mod restart;
mod server;

pub use cluster_model::{Cred, Entry, MirrorId, NodeId, Outbox, Piece, Tick, Times};
pub use decision::{CallDecision, Decision};
pub use ds_procedures::{Answer3, Effect};
pub use laws::{effects, entries, refusals, restarts, strangers, ticks};
pub use logging::Logging;
pub use record::{post, take_back};
pub use server::{DataServer, RestartFault};
