//! OPEN_DOWNGRADE: less access by an open (RFC 8881, section 18.18).

ghost use Rattle.std.specs.Prelude.{refl};
ghost use Rattle.nfs4_unserved_ops.specs.OpenDowngrade.{open_downgrade4_args, open_downgrade4_args_value};

use ff_xdr::{Cursor, Message, NoMemory, Out, Wire, XdrError};
use nfs4_types::{OpResult, Stateid};

/// The arguments, `OPEN_DOWNGRADE4args`.
#[derive(Clone, Copy, Debug)]
pub struct OpenDowngradeArgs {
    /// Of the open.
    pub stateid: Stateid,
    /// Not used in NFSv4.1.
    pub seqid: u32,
    /// What is left: 1 for reading, 2 for writing, 3 for both.
    pub share_access: u32,
    pub share_deny: u32,
}

impl Message for OpenDowngradeArgs {
    ghost form = { open_downgrade4_args };

    ghost meaning = { open_downgrade4_args_value };

    ghost sound = { refl };
}

impl<'a> Wire<'a> for OpenDowngradeArgs {
    fn read(cursor: &mut Cursor<'a>) -> Result<OpenDowngradeArgs, XdrError> {
        let (stateid, seqid, (share_access, share_deny)) = Wire::read(cursor)?;
        Ok(OpenDowngradeArgs {
            stateid,
            seqid,
            share_access,
            share_deny,
        })
    }

    fn put(&self, out: &mut Out) -> Result<(), NoMemory> {
        (
            self.stateid,
            self.seqid,
            (self.share_access, self.share_deny),
        )
            .put(out)
    }

    fn fits(&self) -> bool {
        (
            self.stateid,
            self.seqid,
            (self.share_access, self.share_deny),
        )
            .fits()
    }
}

/// The result, `OPEN_DOWNGRADE4res`: the stateid of the open from now on.
pub type OpenDowngradeRes = OpResult<Stateid>;
