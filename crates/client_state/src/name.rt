//! The name of a client.

ghost use Rattle.std.specs.Prelude.{◌≡◌, ◌≤◌, length, IfOk};
ghost use Rattle.client_state.specs.ClientStates.{client_name};

use ff_xdr::NoMemory;
use std::alloc::Global;
use std::marker::Model;

/// The name of a client in its calls, such as `c1`: the owner of EXCHANGE_ID and OPEN (RFC 8881, section 18.35),
/// and the machine of AUTH_SYS (RFC 5531, appendix A), which has at most 255 bytes.
#[derive(Debug, Drop)]
pub struct ClientName {
    name: String,
}

impl Model for ClientName {
    ghost use Rattle.std.specs.Prelude.{List, ℕ, ◌≤◌, length, string_bytes};

    ghost Value = { List ℕ };

    ghost view = { λ n. string_bytes n.name };

    ghost invariant = { λ n. length (string_bytes n.name) ≤ 255 };
}

impl ClientName {
    /// The name of the client with this number.
    pub fn of(alloc: Global, number: u32) -> Result<ClientName, NoMemory>
        ensures { IfOk result (λ name. name ≡ client_name number) }
    {
        let name = format!(in alloc; "c{number}")?;
        Ok(ClientName { name })
    }

    /// The bytes.
    pub fn bytes(&self) -> &[u8]
        ensures bytes { result.now ≡ self.now }
        ensures few { length self.now ≤ 255 }
    {
        self.name.as_bytes()
    }
}
