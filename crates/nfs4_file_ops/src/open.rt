//! OPEN: open a file, which it may create (RFC 8881, section 18.16).

ghost use Rattle.std.specs.Prelude.{refl};
ghost use Rattle.nfs4_file_ops.specs.Open.{open4_args, open4_args_value, open4_ok, open4_ok_value};

use crate::OpenHow;
use ff_xdr::{Cursor, Message, NoMemory, Out, Wire, XdrError};
use nfs4_types::{ArmZero, Bitmap, Component4, OpResult, Owner4, Stateid};

/// The arguments, `OPEN4args`.
#[derive(Clone, Copy, Debug)]
pub struct OpenArgs<'a> {
    /// Not used in NFSv4.1.
    pub seqid: u32,
    /// Its low two bits: 1 for reading, 2 for writing, 3 for both.
    pub share_access: u32,
    pub share_deny: u32,
    pub clientid: u64,
    pub owner: Owner4<'a>,
    pub how: OpenHow<'a>,
    /// The name of the file in the current directory, `CLAIM_NULL`. It may be any bytes.
    pub claim: ArmZero<Component4<'a>>,
}

impl<'a> Message for OpenArgs<'a> {
    ghost form = { open4_args };

    ghost meaning = { open4_args_value };

    ghost sound = { refl };
}

impl<'a> Wire<'a> for OpenArgs<'a> {
    fn read(cursor: &mut Cursor<'a>) -> Result<OpenArgs<'a>, XdrError> {
        let (seqid, share_access, (share_deny, clientid, (owner, how, claim))) = Wire::read(
            cursor,
        )?;
        Ok(OpenArgs {
            seqid,
            share_access,
            share_deny,
            clientid,
            owner,
            how,
            claim,
        })
    }

    fn put(&self, out: &mut Out) -> Result<(), NoMemory> {
        (
            self.seqid,
            self.share_access,
            (
                self.share_deny,
                self.clientid,
                (self.owner, self.how, self.claim),
            ),
        )
            .put(out)
    }

    fn fits(&self) -> bool {
        (
            self.seqid,
            self.share_access,
            (
                self.share_deny,
                self.clientid,
                (self.owner, self.how, self.claim),
            ),
        )
            .fits()
    }
}

/// The result of an OPEN that was done, `OPEN4resok`.
#[derive(Clone, Copy, Debug)]
pub struct OpenOk<'a> {
    pub stateid: Stateid,
    /// The two numbers are of the moments just before and after.
    pub atomic: bool,
    /// The directory's change attribute before.
    pub before: u64,
    /// The same after.
    pub after: u64,
    pub rflags: u32,
    /// The attributes that were set.
    pub attrset: Bitmap<'a>,
    /// None, `OPEN_DELEGATE_NONE`.
    pub delegation: ArmZero<()>,
}

impl<'a> Message for OpenOk<'a> {
    ghost form = { open4_ok };

    ghost meaning = { open4_ok_value };

    ghost sound = { refl };
}

impl<'a> Wire<'a> for OpenOk<'a> {
    fn read(cursor: &mut Cursor<'a>) -> Result<OpenOk<'a>, XdrError> {
        let (stateid, atomic, (before, after, (rflags, attrset, delegation))) = Wire::read(cursor)?;
        Ok(OpenOk {
            stateid,
            atomic,
            before,
            after,
            rflags,
            attrset,
            delegation,
        })
    }

    fn put(&self, out: &mut Out) -> Result<(), NoMemory> {
        (
            self.stateid,
            self.atomic,
            (
                self.before,
                self.after,
                (self.rflags, self.attrset, self.delegation),
            ),
        )
            .put(out)
    }

    fn fits(&self) -> bool {
        (
            self.stateid,
            self.atomic,
            (
                self.before,
                self.after,
                (self.rflags, self.attrset, self.delegation),
            ),
        )
            .fits()
    }
}

/// The result, `OPEN4res`.
pub type OpenRes<'a> = OpResult<OpenOk<'a>>;
