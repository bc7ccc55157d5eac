//! An address on a network, as messages have it (RFC 8881, section 3.3.9).

ghost use Rattle.std.specs.Prelude.{refl};
ghost use Rattle.nfs4_types.specs.Texts.{netaddr4};
ghost use Rattle.device_addr.specs.NetText.{netaddr4_value};

use ff_xdr::{Cursor, Message, NoMemory, Out, Wire, XdrError};
use nfs4_types::FreeText;

/// An address by two texts, `netaddr4` (RFC 8881, section 3.3.9). Here any two texts; what they say is
/// asked of `parse_universal`.
#[derive(Clone, Copy, Debug, PartialEq, Eq)]
pub struct NetText<'a> {
    /// The network: `tcp` for TCP over IPv4 (RFC 5665).
    pub netid: &'a str,
    /// The address there: for `tcp` a universal address (RFC 5665, section 5.2.3.3).
    pub address: &'a str,
}

impl<'a> Message for NetText<'a> {
    ghost form = { netaddr4 };

    ghost meaning = { netaddr4_value };

    ghost sound = { refl };
}

impl<'a> Wire<'a> for NetText<'a> {
    fn read(cursor: &mut Cursor<'a>) -> Result<NetText<'a>, XdrError> {
        let (netid, address) = <(FreeText<'a>, FreeText<'a>)>::read(cursor)?;
        Ok(NetText {
            netid: netid.text,
            address: address.text,
        })
    }

    fn put(&self, out: &mut Out) -> Result<(), NoMemory> {
        let netid = FreeText { text: self.netid };
        let address = FreeText { text: self.address };
        (netid, address).put(out)
    }

    fn fits(&self) -> bool {
        let netid = FreeText { text: self.netid };
        let address = FreeText { text: self.address };
        (netid, address).fits()
    }
}
