//! The ids of sessions.

ghost use Rattle.std.specs.Prelude.{◌≡◌};
ghost use Rattle.nfs4_session.specs.Clients.{session_id, client_in, number_in};

use nfs4_types::SessionId;

/// The id of a session: its client's and its number, eight bytes each, the highest first.
#[tactic(auto, unfolding(ff_xdr::specs::Form::long))]
pub fn session_id(client: u64, number: u64) -> SessionId
    ensures { result ≡ session_id client number }
{
    let mut bytes = [0; 16];
    bytes[..8].copy_from_slice(&client.to_be_bytes());
    bytes[8..].copy_from_slice(&number.to_be_bytes());
    SessionId(bytes)
}

/// The client whose session this is.
pub fn client_in(session: SessionId) -> u64
    ensures { result ≡ client_in session }
{
    let mut bytes = [0; 8];
    bytes.copy_from_slice(&session.0[..8]);
    u64::from_be_bytes(bytes)
}

/// The number of this session.
pub fn number_in(session: SessionId) -> u64
    ensures { result ≡ number_in session }
{
    let mut bytes = [0; 8];
    bytes.copy_from_slice(&session.0[8..]);
    u64::from_be_bytes(bytes)
}
