//! The operations of a compound, one by one, also those that are not carried out (RFC 8881, section 16.2.3).

ghost use Rattle.std.specs.Prelude.{◌≡◌};
ghost use Rattle.nfs4_compound.specs.AllOps.{nfs_argop4, any_op_value};
ghost use Rattle.nfs4_compound.specs.Operations.{GivesNext, rest_now};

use crate::refused::unbuilt_op;
use crate::{AnyOp, NextOp, Stop};
use ff_xdr::{Cursor, Wire};
use std::marker::Model;

/// The operations that are left, where they stand.
#[derive(Drop)]
pub(crate) struct AllOps<'a> {
    pub(crate) bytes: &'a [u8],
    pub(crate) at: usize,
    pub(crate) left: u32,
}

impl<'a> Model for AllOps<'a> {
    ghost use Rattle.std.specs.Prelude.{◌≤◌, length};
    ghost use Rattle.nfs4_compound.specs.AllOps.{nfs_argop4};
    ghost use Rattle.nfs4_compound.specs.Operations.{OpList, operations};

    ghost Value = { OpList nfs_argop4 };

    ghost view = { λ o. operations nfs_argop4 o.left o.bytes.now o.at };

    ghost invariant = { λ o. o.at ≤ length o.bytes.now };
}

impl<'a> AllOps<'a> {
    /// The same operations, at the same place.
    pub(crate) fn at_same_place(&self) -> AllOps<'a>
        ensures { result ≡ self.now }
    {
        AllOps {
            bytes: self.bytes,
            at: self.at,
            left: self.left,
        }
    }

    /// The next operation, read in place. Behind the last, and where one is not read, each call answers
    /// the same.
    pub(crate) fn next(&mut self) -> NextOp<AnyOp<'a>>
        ensures { GivesNext nfs_argop4 any_op_value self.old result self.new }
    {
        if self.left == 0 {
            return NextOp::End;
        }
        let mut cursor = Cursor::at(self.bytes, self.at);
        match AnyOp::read(&mut cursor) {
            Ok(op) => {
                self.at = cursor.place();
                self.left -= 1;
                NextOp::Op(op)
            }
            Err(error) => match unbuilt_op(self.bytes, self.at, error) {
                Some(number) => NextOp::Unread(number),
                None => NextOp::Bad(error),
            },
        }
    }

    /// The place of the first byte behind the last operation, where all operations were read and bytes are
    /// left: from the first byte of the arguments.
    pub(crate) fn rest(&self) -> Option<usize>
        ensures { result ≡ rest_now self.now.values self.now.stop }
    {
        if self.left > 0 {
            return None;
        }
        if self.at < self.bytes.len() {
            return Some(self.at);
        }
        None
    }

    /// Why there is none behind those that are read. All are gone over.
    pub(crate) fn stop(&self) -> Stop
        ensures { result ≡ self.now.stop }
    {
        let mut ops = self.at_same_place();
        loop {
            match ops.next() {
                NextOp::Op(_) => {}
                NextOp::Unread(number) => return Stop::Unread(number),
                NextOp::Bad(error) => return Stop::Bad(error),
                NextOp::End => return Stop::End(ops.rest()),
            }
        }
    }
}
