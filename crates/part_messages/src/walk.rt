//! Going over the operations of a compound.

use nfs4_compound::{CbOp, CbOps, NextOp, Op, Ops, Stop};
use row_words::Answer;

/// The operations of a compound that are left.
pub trait Walk<O> {
    /// The next one.
    fn next_op(&mut self) -> NextOp<O>;

    /// Where the bytes begin that are left behind the last.
    fn behind(&self) -> Option<usize>;
}

impl<'a> Walk<Op<'a>> for Ops<'a> {
    fn next_op(&mut self) -> NextOp<Op<'a>> {
        self.next()
    }

    fn behind(&self) -> Option<usize> {
        self.rest()
    }
}

impl<'a> Walk<CbOp<'a>> for CbOps<'a> {
    fn next_op(&mut self) -> NextOp<CbOp<'a>> {
        self.next()
    }

    fn behind(&self) -> Option<usize> {
        self.rest()
    }
}

/// The operations up to where they stop, at most so many.
pub fn take_ops<O: Copy, W: Walk<O>>(count: u32, left: &mut W, answer: &mut Answer) -> Vec<O> {
    let mut ops = Vec::new(answer.alloc());
    for _ in 0..count {
        let NextOp::Op(op) = left.next_op() else {
            return ops;
        };
        if ops.push(op).is_err() {
            answer.want_memory();
        }
    }
    ops
}

/// Why there is no further operation. `None` where there is one.
pub fn stop_of<O: Copy, W: Walk<O>>(left: &mut W) -> Option<Stop> {
    match left.next_op() {
        NextOp::Op(_) => None,
        NextOp::Unread(number) => Some(Stop::Unread(number)),
        NextOp::Bad(error) => Some(Stop::Bad(error)),
        NextOp::End => Some(Stop::End(left.behind())),
    }
}

/// Where the bytes begin that are left behind the last, by why there is no further operation.
pub fn behind_stop(stop: Stop) -> Option<usize> {
    match stop {
        Stop::End(behind) => behind,
        _ => None,
    }
}
