//! A recall as it is kept: beside it, whose callback is outstanding to its client.

ghost use Rattle.std.specs.Prelude.{◌≡◌};
ghost use Rattle.recall.specs.Recalls.{waits, is_out, is_out_as, is_of, is_before, has_expired, at_tick};
ghost use Rattle.recall.specs.Entries.{is_out_to, is_ready, ticked, held_as, is_ended, unless_ended, released};

use crate::recall::{RECALL_TIME, Recall, RecallStage};
use cluster_model::{Cred, FileId};

/// A recall, and the grant of the callback that is outstanding to its client, be it its own or another one's. With it
/// neither a search for what may go nor the end of a callback looks through the recalls more than once.
#[derive(Clone, Copy, Debug)]
pub struct KeptRecall {
    pub recall: Recall,
    pub held_by: Option<(FileId, Cred)>,
}

/// Which recalls are over.
#[derive(Clone, Copy, Debug)]
pub enum Ended {
    /// That of one grant.
    Grant(FileId, Cred),
    /// Those of a file.
    File(FileId),
}

/// It waits to be sent.
fn waits(stage: RecallStage) -> bool
    ensures { result ≡ waits stage }
{
    matches!(stage, RecallStage::Waits)
}

/// It is outstanding.
fn is_out(stage: RecallStage) -> bool
    ensures { result ≡ is_out stage }
{
    matches!(stage, RecallStage::Out { .. })
}

/// It is outstanding under this number.
pub fn is_out_as(xid: u32, stage: RecallStage) -> bool
    ensures { result ≡ is_out_as xid stage }
{
    match stage {
        RecallStage::Out { xid: own, .. } => own == xid,
        _ => false,
    }
}

/// It is outstanding to this client.
pub fn is_out_to(client: u64, recall: Recall) -> bool
    ensures { result ≡ is_out_to client recall }
{
    recall.client == client && is_out(recall.stage)
}

/// It is of this grant.
pub fn is_of(file: FileId, cred: Cred, recall: Recall) -> bool
    ensures { result ≡ is_of file cred recall }
{
    recall.file.0 == file.0 && recall.cred.0 == cred.0
}

/// The first stands before the second.
pub fn is_before(a: Recall, b: Recall) -> bool
    ensures { result ≡ is_before a b }
{
    a.file.0 < b.file.0 || (a.file.0 == b.file.0 && a.cred.0 < b.cred.0)
}

/// It was asked more than 90 s before.
pub fn has_expired(now: u64, recall: Recall) -> bool
    ensures { result ≡ has_expired now recall }
{
    // with no sum that could be too large
    now.saturating_sub(recall.asked) > RECALL_TIME
}

/// Its callback may go out.
pub fn is_ready(entry: KeptRecall) -> bool
    ensures { result ≡ is_ready entry }
{
    waits(entry.recall.stage) && entry.held_by.is_none()
}

/// The recall after a tick: what waited for it is to be sent.
fn at_tick(recall: Recall) -> Recall
    ensures { result ≡ at_tick recall }
{
    let stage = match recall.stage {
        RecallStage::Later => RecallStage::Waits,
        stage => stage,
    };
    Recall { stage, ..recall }
}

/// The entry after a tick.
pub fn ticked(entry: KeptRecall) -> KeptRecall
    ensures { result ≡ ticked entry }
{
    KeptRecall {
        recall: at_tick(entry.recall),
        ..entry
    }
}

/// The entry, where this grant's callback is outstanding to this client, or none is.
pub fn held_as(client: u64, grant: Option<(FileId, Cred)>, entry: KeptRecall) -> KeptRecall
    ensures { result ≡ held_as client grant entry }
{
    if entry.recall.client == client {
        KeptRecall {
            recall: entry.recall,
            held_by: grant,
        }
    } else {
        entry
    }
}

/// The recall of this grant is over.
pub fn is_ended(ended: Ended, grant: (FileId, Cred)) -> bool
    ensures { result ≡ is_ended ended grant }
{
    match ended {
        Ended::Grant(file, cred) => grant.0.0 == file.0 && grant.1.0 == cred.0,
        Ended::File(file) => grant.0.0 == file.0,
    }
}

/// The grant, unless its recall is over.
fn unless_ended(ended: Ended, held_by: Option<(FileId, Cred)>) -> Option<(FileId, Cred)>
    ensures { result ≡ unless_ended ended held_by }
{
    let grant = held_by?;
    if is_ended(ended, grant) {
        None
    } else {
        Some(grant)
    }
}

/// The entry, once these recalls are over: no callback of theirs is outstanding to its client.
pub fn released(ended: Ended, entry: KeptRecall) -> KeptRecall
    ensures { result ≡ released ended entry }
{
    KeptRecall {
        recall: entry.recall,
        held_by: unless_ended(ended, entry.held_by),
    }
}
