//! NFSv4.1 (RFC 8881): the arguments and results of the operations on clients, sessions and connections,
//! exactly.
#![tactic(auto)]

mod bind_conn;
mod callback_sec;
mod cb_sequence;
mod create_session;
mod destroy_clientid;
mod destroy_session;
mod direction;
mod exchange_id;
mod impl_id;
mod reclaim_complete;
mod referring_call;
mod referring_calls;
mod sequence_res;

pub use bind_conn::{BindConnArgs, BindConnOk, BindConnRes};
pub use callback_sec::CallbackSec;
pub use cb_sequence::{CbSequenceArgs, CbSequenceOk, CbSequenceRes};
pub use create_session::{CreateSessionArgs, CreateSessionOk, CreateSessionRes};
pub use destroy_clientid::{DestroyClientIdArgs, DestroyClientIdRes};
pub use destroy_session::{DestroySessionArgs, DestroySessionRes};
pub use direction::{FromClient, FromServer};
pub use exchange_id::{ExchangeIdArgs, ExchangeIdOk, ExchangeIdRes};
pub use impl_id::ImplId;
pub use reclaim_complete::{ReclaimCompleteArgs, ReclaimCompleteRes};
pub use referring_call::ReferringCall;
pub use referring_calls::ReferringCalls;
pub use sequence_res::{SequenceOk, SequenceRes};
