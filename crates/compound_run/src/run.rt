//! A compound that is run.

ghost use Rattle.std.specs.Prelude.{◌≡◌, ◌≢◌, ◌==◌, length, IfOk, OnOk};
ghost use Rattle.ff_xdr.specs.Form.{Fits};
ghost use Rattle.compound_reply.specs.Replied.{results_text};
ghost use Rattle.nfs4_types.specs.declared.status.Stat4.TheVariants as stat;
ghost use Rattle.nfs4_compound.specs.Results.{resop4, op_res_value};
ghost use Rattle.mds_rule.specs.OpSteps.{with_result, refused_as, at_object};
ghost use Rattle.mds_rule.specs.Compounds.{compound_bytes};
ghost use Rattle.compound_run.specs.CompoundRuns.{HasRoomForResults, Where, AddsResult};
ghost use Rattle.compound_run.specs.declared.op_end.OpEnd.TheVariants.{Goes, Ends};

use crate::op_end::OpEnd;
use crate::refused::refusal;
use cluster_model::NodeId;
use compound_reply::Results;
use ff_xdr::NoMemory;
use mds_refusals::Object;
use nfs4_compound::{OpRes, Ops};
use nfs4_session::SlotPass;
use nfs4_types::Stat4;
use std::marker::Model;

/// How far a compound has come.
#[derive(Drop)]
pub struct Progress {
    /// Who sent it, and under which number: where its reply goes.
    pub node: NodeId,
    pub xid: u32,
    pub results: Results,
    /// The slot that it has, where it began with a SEQUENCE.
    pub slot: Option<SlotPass>,
    /// Its reply is to be kept.
    pub is_kept: bool,
    /// What the current filehandle is of.
    pub current: Option<Object>,
}

/// A compound that is run: its tag of at most 1,024 bytes, the operations that are still to come, and how far it is.
#[derive(Drop)]
pub struct Run<'a> {
    pub tag: &'a str,
    pub ops: Ops<'a>,
    pub so_far: Progress,
}

impl<'a> Model for Run<'a> {
    ghost use Rattle.std.specs.Prelude.{◌≤◌, length};
    ghost use Rattle.mds_rule.specs.MdsStates.{CompoundRun};
    ghost use Rattle.compound_run.specs.CompoundRuns.{run_of};

    ghost Value = { CompoundRun };

    ghost view = { λ r. run_of r.tag.now r.ops r.so_far };

    ghost invariant = { λ r. length r.tag.now ≤ 1024 };
}

impl<'a> Run<'a> {
    /// The result of an operation, behind those before it. Takes memory.
    pub fn push(&mut self, res: &OpRes<'_>) -> Result<(), NoMemory>
        requires room { HasRoomForResults self.old }
        requires fits { Fits resop4 (op_res_value res.now) }
        ensures { OnOk result (self.new ≡ with_result self.old (op_res_value res.now)) }
    {
        self.so_far.results.push(res)
    }

    /// An operation is done, with this result. Takes memory.
    pub fn give(&mut self, res: &OpRes<'_>) -> Result<OpEnd, NoMemory>
        requires room { HasRoomForResults self.old }
        requires fits { Fits resop4 (op_res_value res.now) }
        ensures goes { IfOk result (λ e. e ≡ Goes) }
        ensures run { OnOk result (self.new ≡ with_result self.old (op_res_value res.now)) }
        ensures on { AddsResult self.old result self.new }
    {
        self.push(res)?;
        Ok(OpEnd::Goes)
    }

    /// The operation with this number is refused by a status that is not OK, and stands alone as its result: TOOSMALL of
    /// GETDEVICEINFO and LAYOUTTRYLATER of LAYOUTGET do not. Takes memory.
    pub fn refuse(&mut self, number: u32, status: Stat4) -> Result<OpEnd, NoMemory>
        requires room { HasRoomForResults self.old }
        requires refusal { status ≢ stat.Ok }
        requires no_size { Where (number == 47) (status ≢ stat.TooSmall) }
        requires no_word { Where (number == 50) (status ≢ stat.LayoutTryLater) }
        ensures ends { IfOk result (λ e. e ≡ Ends status) }
        ensures run { OnOk result (self.new ≡ with_result self.old (refused_as number status)) }
    {
        self.push(&refusal(number, status))?;
        Ok(OpEnd::Ends(status))
    }

    /// The current filehandle is of this object.
    pub fn go_to(&mut self, object: Object)
        ensures { self.new ≡ at_object self.old object }
    {
        self.so_far.current = Some(object);
    }

    /// How many bytes the results have, without the compound's status, tag and count.
    pub fn size(&self) -> usize
        ensures { result ≡ length (results_text self.now.results) }
    {
        self.so_far.results.size()
    }

    /// The compound's result with this status, `COMPOUND4res` (RFC 8881, section 16.2.4). Takes memory.
    pub fn bytes(&self, status: Stat4) -> Result<Vec<u8>, NoMemory>
        ensures { IfOk result (λ bytes. bytes.items ≡ compound_bytes self.now status) }
    {
        self.so_far.results.compound(status, self.tag)
    }
}
