//! Which channels of a session a connection serves (RFC 8881, section 18.34).

ghost use Rattle.std.specs.Prelude.{◌≡◌, refl};
ghost use Rattle.nfs4_session_ops.specs.Directions.{from_client4, from_client4_number, from_server4, from_server4_number};

use ff_xdr::{Cursor, Message, NoMemory, Out, Wire, XdrError};

/// Which channels a client asks for, `channel_dir_from_client4`.
#[derive(Clone, Copy, Debug, PartialEq, Eq)]
pub enum FromClient {
    Fore,
    Back,
    ForeOrBoth,
    BackOrBoth,
}

impl FromClient {
    /// The number of the direction.
    pub fn number(self) -> u32
        ensures { result ≡ from_client4_number self }
    {
        match self {
            FromClient::Fore => 1,
            FromClient::Back => 2,
            FromClient::ForeOrBoth => 3,
            FromClient::BackOrBoth => 7,
        }
    }
}

impl Message for FromClient {
    ghost form = { from_client4 };

    ghost meaning = { from_client4_number };

    ghost sound = { refl };
}

impl<'a> Wire<'a> for FromClient {
    fn read(cursor: &mut Cursor<'a>) -> Result<FromClient, XdrError> {
        let mut fork = cursor.fork();
        let direction = match fork.number32()? {
            1 => FromClient::Fore,
            2 => FromClient::Back,
            3 => FromClient::ForeOrBoth,
            7 => FromClient::BackOrBoth,
            _ => return Err(XdrError::not_enum(cursor.place())),
        };
        *cursor = fork;
        Ok(direction)
    }

    fn put(&self, out: &mut Out) -> Result<(), NoMemory> {
        out.number32(self.number())?;
        Ok(())
    }

    fn fits(&self) -> bool {
        // the variant is looked at, so that the check knows that its number is one of the form's
        let _direction = *self;
        true
    }
}

/// Which channels a server grants, `channel_dir_from_server4`.
#[derive(Clone, Copy, Debug, PartialEq, Eq)]
pub enum FromServer {
    Fore,
    Back,
    Both,
}

impl FromServer {
    /// The number of the direction.
    pub fn number(self) -> u32
        ensures { result ≡ from_server4_number self }
    {
        match self {
            FromServer::Fore => 1,
            FromServer::Back => 2,
            FromServer::Both => 3,
        }
    }
}

impl Message for FromServer {
    ghost form = { from_server4 };

    ghost meaning = { from_server4_number };

    ghost sound = { refl };
}

impl<'a> Wire<'a> for FromServer {
    fn read(cursor: &mut Cursor<'a>) -> Result<FromServer, XdrError> {
        let mut fork = cursor.fork();
        let direction = match fork.number32()? {
            1 => FromServer::Fore,
            2 => FromServer::Back,
            3 => FromServer::Both,
            _ => return Err(XdrError::not_enum(cursor.place())),
        };
        *cursor = fork;
        Ok(direction)
    }

    fn put(&self, out: &mut Out) -> Result<(), NoMemory> {
        out.number32(self.number())?;
        Ok(())
    }

    fn fits(&self) -> bool {
        // the variant is looked at, so that the check knows that its number is one of the form's
        let _direction = *self;
        true
    }
}
