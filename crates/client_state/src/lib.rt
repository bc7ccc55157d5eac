//! What a client of the cluster has, and the queue of what its user asks for (RFC 8881, RFC 8435).
#![tactic(auto)]

mod asked;
mod devices;
mod head;
mod laws;
mod layout;
mod name;
mod queue;
mod request;
mod stage;
mod state;
mod tie;
mod untold;
mod user;

pub use asked::{Asked, is_layout_return};
pub use devices::{knows, unknown_in};
pub use laws::queue_law;
pub use layout::Layout;
pub use name::ClientName;
pub use request::{FileName, UserRequest};
pub use stage::LayoutStage;
pub use state::State;
pub use tie::{OwnSession, Tie};
pub use untold::Untold;
