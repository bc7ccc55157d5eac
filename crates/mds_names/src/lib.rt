//! The operations on names, attributes and opens, as a metadata server runs them (RFC 8881, sections 18.2, 18.7, 18.8, 18.13, 18.16, 18.19 and 18.21).
#![tactic(auto)]

mod asked;
mod attributes;
mod closing;
mod handles;
mod opening;

pub use asked::{client_of, current_file, named_in, phase_now, uids_left};
pub use attributes::get_attr;
pub use closing::close;
pub use handles::{get_fh, lookup, put_fh, put_root_fh};
pub use opening::open;
