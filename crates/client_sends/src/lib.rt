//! Whatever comes to a client, what it sends to data servers is what a user sends, and so are the entries that it makes.
#![tactic(auto)]

mod laws;

pub use laws::client_sends;
