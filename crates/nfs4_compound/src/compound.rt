//! Reading a compound (RFC 8881, section 16.2.3), its operations one by one.

ghost use Rattle.std.specs.Prelude.{◌≡◌};
ghost use Rattle.ff_xdr.specs.Calls.{Finds};
ghost use Rattle.nfs4_compound.specs.Args.{argop4, op_value};
ghost use Rattle.nfs4_compound.specs.Operations.{GivesNext, rest_now, rest_of_stop};
ghost use Rattle.nfs4_compound.specs.Compounds.{compound_at, compound_verdict};

use crate::all_ops::AllOps;
use crate::{AnyOp, NextOp, Op, Stop, Tag4};
use ff_xdr::{Cursor, Wire, XdrError};
use std::marker::Model;

/// The arguments of a compound. Its operations stay unread, and it takes no memory.
#[derive(Drop)]
pub struct Compound<'a> {
    tag: &'a str,
    minorversion: u32,
    count: u32,
    bytes: &'a [u8],
    at: usize,
}

impl<'a> Model for Compound<'a> {
    ghost use Rattle.std.specs.Prelude.{◌≤◌, length};
    ghost use Rattle.nfs4_compound.specs.AllOps.{served_ops};
    ghost use Rattle.nfs4_compound.specs.Compounds.{CompoundValue, whole_stop};

    ghost Value = { CompoundValue };

    ghost view = { λ c. record { tag = c.tag.now; minorversion = c.minorversion; count = c.count; ops = served_ops c.count c.bytes.now c.at; stop = whole_stop c.count c.bytes.now c.at } };

    ghost invariant = { λ c. c.at ≤ length c.bytes.now };
}

impl<'a> Compound<'a> {
    /// Reads what stands before the operations. The tag has at most 1,024 bytes, which is a limit of the
    /// project's own. A refusal names the first byte that no compound has there.
    pub fn read(args: &'a [u8]) -> Result<Compound<'a>, XdrError>
        ensures { Finds (λ c. c) result (compound_at args.now) }
    {
        let mut cursor = Cursor::new(args);
        let (tag, minorversion, count) = <(Tag4<'a>, u32, u32)>::read(&mut cursor)?;
        Ok(Compound {
            tag: tag.text,
            minorversion,
            count,
            bytes: args,
            at: cursor.place(),
        })
    }

    /// The tag, which the result bears too.
    pub fn tag(&self) -> &'a str
        ensures { result.now ≡ self.now.tag }
    {
        self.tag
    }

    /// The minor version.
    pub fn minorversion(&self) -> u32
        ensures { result ≡ self.now.minorversion }
    {
        self.minorversion
    }

    /// How many operations there are to be. They need not stand in the bytes.
    pub fn count(&self) -> u32
        ensures { result ≡ self.now.count }
    {
        self.count
    }

    /// The operations, one by one, up to the first that is not carried out.
    pub fn ops(&self) -> Ops<'a>
        ensures { result ≡ self.now.ops }
    {
        Ops {
            all: AllOps {
                bytes: self.bytes,
                at: self.at,
                left: self.count,
            },
        }
    }

    /// Why there is no operation behind those that are read, also of those that are not carried out. All are gone over.
    pub fn stop(&self) -> Stop
        ensures { result ≡ self.now.stop }
    {
        let all = AllOps {
            bytes: self.bytes,
            at: self.at,
            left: self.count,
        };
        all.stop()
    }

    /// The place of the first byte behind the last operation, where all operations are read and bytes are
    /// left: from the first byte of the arguments.
    pub fn rest(&self) -> Option<usize>
        ensures { result ≡ rest_of_stop self.now.stop }
    {
        match self.stop() {
            Stop::End(rest) => rest,
            Stop::Unread(_) | Stop::Bad(_) => None,
        }
    }
}

/// The operations of a compound that are left, as far as they are carried out.
#[derive(Drop)]
pub struct Ops<'a> {
    pub(crate) all: AllOps<'a>,
}

impl<'a> Model for Ops<'a> {
    ghost use Rattle.nfs4_compound.specs.Args.{argop4};
    ghost use Rattle.nfs4_compound.specs.Operations.{OpList};
    ghost use Rattle.nfs4_compound.specs.AllOps.{served_list};

    ghost Value = { OpList argop4 };

    ghost view = { λ o. served_list o.all };
}

impl<'a> Ops<'a> {
    /// The next operation, read in place. Behind the last, where one is not read, and where one is not carried out, which is
    /// told as one that is not built, each call answers the same.
    pub fn next(&mut self) -> NextOp<Op<'a>>
        ensures { GivesNext argop4 op_value self.old result self.new }
    {
        let mut all = self.all.at_same_place();
        match all.next() {
            NextOp::Op(AnyOp::Served(op)) => {
                self.all = all;
                NextOp::Op(op)
            }
            NextOp::Op(AnyOp::Unserved(op)) => NextOp::Unread(op.number()),
            NextOp::Unread(number) => NextOp::Unread(number),
            NextOp::Bad(error) => NextOp::Bad(error),
            NextOp::End => NextOp::End,
        }
    }

    /// The place of the first byte behind the last operation, where all operations were read and bytes are
    /// left: from the first byte of the arguments.
    pub fn rest(&self) -> Option<usize>
        ensures { result ≡ rest_now self.now.values self.now.stop }
    {
        self.all.rest()
    }
}

/// What the arguments of a compound are: in their form, or the first byte at which they are not, and why.
/// An operation that is not built counts as good and ends the check; bytes behind the last are refused as
/// `Rest`.
pub fn judge_compound(args: &[u8]) -> Result<(), XdrError>
    ensures { result ≡ compound_verdict args.now }
{
    let compound = Compound::read(args)?;
    compound.stop().verdict()
}
