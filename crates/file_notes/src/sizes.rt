//! The sizes last seen at mirrors (RFC 8435, section 2.1).

ghost use Rattle.std.specs.Prelude.{◌≡◌, ◌++◌, ◌∷◌, [], filter, find, not, OnOk};
ghost use Rattle.cluster_model.specs.DsCalls.{plain_ds_call, plain_ds_reply};
ghost use Rattle.mds_rule.specs.MdsStates.{is_size_of, size_or_none, size_of_first, with_size};
ghost use Rattle.mds_rule.specs.ServedFiles.{is_live_size};
ghost use Rattle.mds_rule.specs.Answers.{attributes_shown, made_fileid, fileid_of};

use cluster_model::{DsCall, DsReply, MirrorId, Mirrors, Shown};
use ff_xdr::NoMemory;

/// The size last seen at a mirror; 0 where it has shown none.
fn size_at(id: MirrorId, sizes: &[(MirrorId, u64)]) -> u64
    ensures { result ≡ size_or_none (find (is_size_of id) sizes.now) }
{
    for (seen, size) in sizes {
        if *seen == id {
            return *size;
        }
    }
    0
}

/// The size last seen at the first of these mirrors.
pub fn size_of_first(live: Mirrors, sizes: &[(MirrorId, u64)]) -> u64
    ensures { result ≡ size_of_first live sizes.now }
{
    match live.get(0) {
        Some(first) => size_at(first.id, sizes),
        None => 0,
    }
}

/// This size was seen at a mirror. Takes memory.
pub fn set_size(id: MirrorId, size: u64, sizes: &mut Vec<(MirrorId, u64)>) -> Result<(), NoMemory>
    ensures { OnOk result (sizes.new.items ≡ with_size id size sizes.old.items) }
{
    sizes.retain(|seen| seen.0 != id);
    sizes.push((id, size))?;
    Ok(())
}

/// The sizes of other mirrors than these are forgotten.
pub fn keep_live(live: Mirrors, sizes: &mut Vec<(MirrorId, u64)>)
    ensures { sizes.new.items ≡ filter (is_live_size live) sizes.old.items }
{
    sizes.retain(|seen| live.has(seen.0));
}

/// What a reply shows of the file.
pub fn attributes_shown(reply: &DsReply<'_>) -> Option<Shown>
    ensures { result ≡ attributes_shown (plain_ds_reply reply.now) }
{
    match *reply {
        DsReply::Created { shown, .. } => Some(shown),
        DsReply::Set { shown } => shown,
        DsReply::Written { shown, .. } => shown,
        DsReply::Committed { shown, .. } => shown,
        DsReply::Bytes { shown, .. } => shown,
        DsReply::NotSync { shown } => Some(shown),
        DsReply::Failed { shown, .. } => shown,
    }
}

/// The file that a CREATE has made.
fn made_fileid(reply: &DsReply<'_>) -> Option<u64>
    ensures { result ≡ made_fileid (plain_ds_reply reply.now) }
{
    match *reply {
        DsReply::Created { fileid, .. } => Some(fileid),
        _ => None,
    }
}

/// The file that a call was on, where its reply tells.
pub fn fileid_of(call: &DsCall<'_>, reply: &DsReply<'_>) -> Option<u64>
    ensures { result ≡ fileid_of (plain_ds_call call.now) (plain_ds_reply reply.now) }
{
    match *call {
        DsCall::Create { .. } => made_fileid(reply),
        DsCall::SetAttr { fileid, .. } => Some(fileid),
        DsCall::Write { fileid, .. } => Some(fileid),
        DsCall::Commit { fileid } => Some(fileid),
        DsCall::Read { fileid, .. } => Some(fileid),
    }
}
