//! XDR (RFC 4506): reading accepts exactly what a value spells.
#![tactic(auto)]

mod bounded;
mod cursor;
mod data;
mod error;
mod items;
mod laws;
mod out;
mod parts;
mod place;
mod refusal_laws;
mod slices;
mod text;
mod wire;

pub use bounded::{Array, Opaque, Text};
pub use cursor::Cursor;
pub use data::Data;
pub use error::{NoMemory, XdrError, XdrWhy};
pub use items::Items;
pub use laws::{every_arm, every_form, every_message_of};
pub use out::Out;
pub use refusal_laws::every_refusal;
pub use wire::{Message, Wire};
