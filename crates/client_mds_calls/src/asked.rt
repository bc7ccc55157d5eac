//! What is asked by a call.

ghost use Rattle.std.specs.Prelude.{◌≡◌, ◌≤◌, length};
ghost use Rattle.client_mds_calls.specs.MdsCalls.{ask_of, plain_mds_call};
ghost use Rattle.client_mds_calls.specs.MdsCompounds.{servers_of_call};

use crate::ask::MdsAsk;
use crate::call::{MdsCall, SlotCall};

impl<'a> MdsCall<'a> {
    /// What is asked, with what its answer is held against. A GETDEVICEINFO names at most four data
    /// servers.
    pub fn ask(&self) -> MdsAsk
        requires { length (servers_of_call (plain_mds_call self.now)) ≤ 4 }
        ensures { result ≡ ask_of (plain_mds_call self.now) }
    {
        let call = match self {
            MdsCall::ExchangeId { .. } => return MdsAsk::ExchangeId,
            MdsCall::CreateSession { .. } => return MdsAsk::CreateSession,
            MdsCall::OnSlot { call, .. } => call,
        };
        match call {
            SlotCall::ReclaimComplete => MdsAsk::ReclaimComplete,
            SlotCall::Open { .. } => MdsAsk::Open,
            SlotCall::LayoutGet { .. } => MdsAsk::LayoutGet,
            SlotCall::DeviceInfo { servers } => MdsAsk::DeviceInfo {
                count: servers.len() as u32,
            },
            SlotCall::Write { .. } => MdsAsk::Write,
            SlotCall::Read { at, count, .. } => MdsAsk::Read {
                at: *at,
                count: *count,
            },
            SlotCall::LayoutReturn { .. } => MdsAsk::LayoutReturn,
            SlotCall::Renew => MdsAsk::Renew,
        }
    }
}
