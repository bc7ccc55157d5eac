//! What a record or a call comes to, before it is carried out.

use cluster_model::Entry;
use ds_procedures::{Answer3, Effect};
use ff_xdr::Data;

/// What a record comes to.
#[derive(Drop)]
pub struct Decision<'m> {
    /// The record that goes back, and none where what came is no call.
    pub reply: Option<Data>,
    /// The entries of the step, where a journal is kept.
    pub entries: Vec<Entry>,
    /// What is to be done. The bytes of a WRITE and the name of a CREATE are those of the record.
    pub effect: Effect<'m>,
}

/// What a call comes to.
#[derive(Drop)]
pub struct CallDecision<'c> {
    /// The answer, with the entries of the step.
    pub answer: Answer3,
    /// What is to be done.
    pub effect: Effect<'c>,
}
