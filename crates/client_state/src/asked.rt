//! What is outstanding at the metadata server.

ghost use Rattle.std.specs.Prelude.{◌≡◌};
ghost use Rattle.client_state.specs.ClientStates.{is_layout_return};

use client_mds_calls::MdsAsk;
use ff_xdr::Data;

/// The compound that is outstanding. It is late where its SEQUENCE was answered DELAY, so that the same record
/// goes out at the next tick (RFC 8881, section 2.10.6.1).
#[derive(Debug, Drop)]
pub struct Asked {
    /// Its number.
    pub xid: u32,
    /// What was asked.
    pub ask: MdsAsk,
    /// Its record.
    pub message: Data,
    pub is_late: bool,
}

/// It was asked to take a layout back.
pub fn is_layout_return(ask: MdsAsk) -> bool
    ensures { result ≡ is_layout_return ask }
{
    match ask {
        MdsAsk::ExchangeId => false,
        MdsAsk::CreateSession => false,
        MdsAsk::ReclaimComplete => false,
        MdsAsk::Open => false,
        MdsAsk::LayoutGet => false,
        MdsAsk::DeviceInfo { .. } => false,
        MdsAsk::Write => false,
        MdsAsk::Read { .. } => false,
        MdsAsk::LayoutReturn => true,
        MdsAsk::Renew => false,
    }
}
