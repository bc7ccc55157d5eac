//! Machines of the cluster, as rows play them: a client, a data server and a metadata server, over the bytes of their records.
#![tactic(auto)]

mod apply;
mod client;
mod crashes;
mod mds;
mod outbox;
mod server;
mod store;
mod stored_file;
mod trystore;

pub use client::ClientRows;
pub use mds::MdsRows;
pub use server::ServerRows;
pub use store::StoreRows;
pub use stored_file::DataFileRows;
pub use trystore::TryStoreRows;
