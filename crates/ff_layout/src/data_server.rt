//! A data server of a mirror (RFC 8435, section 5.1).

ghost use Rattle.std.specs.Prelude.{refl};
ghost use Rattle.ff_layout.specs.DataServer.{ff_data_server4, ff_data_server4_value};

use ff_xdr::{Array, Cursor, Items, Message, NoMemory, Out, Wire, XdrError};
use nfs4_types::{DeviceId, FreeText, Handle4, Stateid};

/// A data server, and the file on it, `ff_data_server4` (RFC 8435, section 5.1).
#[derive(Clone, Copy, Debug)]
pub struct FfDataServer<'a> {
    pub device: DeviceId,
    /// How well the server serves, against the other mirrors: any number, the higher the better.
    pub efficiency: u32,
    /// What the client sends as stateid to a server of NFSv4 or later; else it says nothing.
    pub stateid: Stateid,
    /// The file's handles, one for each version of NFS that the device's address names, in that order;
    /// at most 2^32 - 1.
    pub handles: Items<'a, Handle4<'a>>,
    /// The user under whom the client calls the server, for AUTH_SYS a number in decimal
    /// (`user_number`).
    pub user: &'a str,
    /// The group, likewise.
    pub group: &'a str,
}

/// The handles of a file.
type Handles<'a> = Array<'a, Handle4<'a>, { u32::MAX }>;

/// A data server by its parts.
type Parts<'a> = (
    DeviceId,
    u32,
    (Stateid, Handles<'a>, (FreeText<'a>, FreeText<'a>)),
);

impl<'a> Message for FfDataServer<'a> {
    ghost form = { ff_data_server4 };

    ghost meaning = { ff_data_server4_value };

    ghost sound = { refl };
}

impl<'a> Wire<'a> for FfDataServer<'a> {
    fn read(cursor: &mut Cursor<'a>) -> Result<FfDataServer<'a>, XdrError> {
        let (device, efficiency, (stateid, handles, (user, group))) = Parts::read(cursor)?;
        Ok(FfDataServer {
            device,
            efficiency,
            stateid,
            handles: handles.items,
            user: user.text,
            group: group.text,
        })
    }

    fn put(&self, out: &mut Out) -> Result<(), NoMemory> {
        let handles = Handles {
            items: self.handles,
        };
        let user = FreeText { text: self.user };
        let group = FreeText { text: self.group };
        (
            self.device,
            self.efficiency,
            (self.stateid, handles, (user, group)),
        )
            .put(out)
    }

    fn fits(&self) -> bool {
        let handles = Handles {
            items: self.handles,
        };
        let user = FreeText { text: self.user };
        let group = FreeText { text: self.group };
        (
            self.device,
            self.efficiency,
            (self.stateid, handles, (user, group)),
        )
            .fits()
    }
}
