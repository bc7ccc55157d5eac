//! The bodies of flexible-file layouts (RFC 8435, sections 5 and 9), exactly: layouts, and what a client
//! that gives one back reports.
#![tactic(auto)]

mod data_server;
mod device_error;
mod io_error;
mod io_stats;
mod latency;
mod laws;
mod layout;
mod mirror;
mod return_body;
mod user;

pub use data_server::FfDataServer;
pub use device_error::DeviceError;
pub use io_error::IoErr;
pub use io_stats::IoStats;
pub use latency::Latency;
pub use laws::every_body;
pub use layout::FfLayout;
pub use mirror::FfMirror;
pub use return_body::LayoutReturnBody;
pub use user::user_number;
