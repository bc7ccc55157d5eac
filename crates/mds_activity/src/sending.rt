//! The calls of a file that go out, and those that are outstanding.

ghost use Rattle.std.specs.Prelude.{◌≡◌, ◌≤◌, [], length, if◌then◌else◌};
ghost use Rattle.cluster_model.specs.DsCalls.{plain_ds_call, data_in};
ghost use Rattle.cluster_model.specs.declared.limits.TheConstants.{PIECE_SIZE};
ghost use Rattle.cluster_model.specs.Fences.{waits};
ghost use Rattle.file_rule.specs.MdsFiles.{Makes, Fences, Settles, Copies};
ghost use Rattle.file_rule.specs.FilePhases.{first_is_on, is_outstanding};
ghost use Rattle.mds_activity.specs.Activities.{plain_activity, FitsPhase};
ghost use Rattle.mds_activity.specs.FileCalls.{call_by, file_with, SendsFileCall, as_file_call, servers_by, first_server, kept_by, kept_commit};
ghost use Rattle.mds_activity.specs.Targets.{CanAllComeIn};
ghost use Rattle.mds_activity.specs.declared.sending.FileCallKind.TheVariants as kind;

use crate::activity::Activity;
use arrayvec::ArrayVec;
use call_stage::{is_out, kept_out_to, waits};
use cluster_model::{CallStage, Cred, DsCall, Mirrors, PIECE_SIZE, Tick};
use fence::Fence;
use layout_state::FileState;
use mds_creations::Creations;
use resilver::{Copy, NextCall};

/// A call of a file that goes out: to which server, by which uid (RFC 5531, section 8.2), and which. The file lends it, as
/// long as nothing else comes to it.
#[derive(Clone, Copy, Debug, PartialEq, Eq)]
pub struct FileCall {
    pub server: u32,
    pub uid: u32,
    pub call: FileCallKind,
}

/// Which call it is (RFC 1813, sections 3.3.2, 3.3.6 to 3.3.8 and 3.3.21).
#[derive(Clone, Copy, Debug, PartialEq, Eq)]
pub enum FileCallKind {
    /// The CREATE of the file under the name of this number, for this owner.
    Create {
        name: u64,
        owner: Cred,
    },
    /// The SETATTR of owner and group, where the ctime is the guard.
    SetAttr {
        fileid: u64,
        owner: Cred,
        guard: Tick,
    },
    /// The COMMIT of the whole file.
    Commit {
        fileid: u64,
    },
    /// The READ of at most `count` bytes from the byte `at` on.
    Read {
        fileid: u64,
        at: u64,
        count: u32,
    },
    /// The FILE_SYNC WRITE of the piece in hand to this file.
    WritePiece {
        fileid: u64,
    },
}

impl Activity {
    /// The call that goes out next, which is outstanding from now on under this number; `None` where none waits. No call of
    /// this number is outstanding before.
    pub fn send_next(&mut self, layout: FileState, xid: u32) -> Option<FileCall>
        ensures sends { SendsFileCall (file_with layout self.old) xid result (file_with layout self.new) }
        ensures fits { FitsPhase layout self.old → FitsPhase layout self.new }
    {
        match self {
            Activity::Idle => None,
            Activity::Makes(all) => send_create(all, layout, xid),
            Activity::Fences(fence) => send_set(fence, layout, xid),
            Activity::Settles { stage, .. } => send_commit(stage, layout, xid),
            Activity::Copies { copy, .. } => send_copy(copy, layout, xid),
        }
    }

    /// This call, as it is sent.
    pub fn lend(&self, call: FileCallKind) -> DsCall<'_>
        ensures few { length (data_in (plain_ds_call result)) ≤ PIECE_SIZE }
        ensures lends { plain_ds_call result ≡ call_by (plain_activity self.now) call }
    {
        match call {
            FileCallKind::Create { name, owner } => DsCall::Create { name, owner },
            FileCallKind::SetAttr {
                fileid,
                owner,
                guard,
            } => DsCall::SetAttr {
                fileid,
                owner,
                guard,
            },
            FileCallKind::Commit { fileid } => DsCall::Commit { fileid },
            FileCallKind::Read { fileid, at, count } => DsCall::Read { fileid, at, count },
            FileCallKind::WritePiece { fileid } => self.lend_piece(fileid),
        }
    }

    /// The WRITE of the piece in hand; without a copy one of no bytes.
    fn lend_piece(&self, fileid: u64) -> DsCall<'_>
        ensures few { length (data_in (plain_ds_call result)) ≤ PIECE_SIZE }
        ensures lends { plain_ds_call result ≡ call_by (plain_activity self.now) (kind.WritePiece fileid) }
    {
        match self {
            Activity::Copies { copy, .. } => copy.lend(NextCall::WritesPiece { fileid }),
            _ => DsCall::Write {
                fileid,
                at: 0,
                synced: true,
                bytes: &[],
            },
        }
    }

    /// The servers to which calls wait, in the order in which they go out, one after the other.
    pub fn waiting_servers(&self, live: Mirrors) -> ArrayVec<u32, 4>
        ensures { result.items ≡ servers_by live (plain_activity self.now) }
    {
        match self {
            Activity::Idle => ArrayVec::new(),
            Activity::Makes(all) => all.waiting_servers(),
            Activity::Fences(fence) => fence.waiting_servers(),
            Activity::Settles { stage, .. } => waiting_commit(*stage, live),
            Activity::Copies { copy, .. } => copy.waiting_servers(),
        }
    }

    /// A call of this number is outstanding to this server.
    pub fn is_outstanding(&self, layout: FileState, server: u32, xid: u32) -> bool
        ensures { result ≡ is_outstanding (file_with layout self.now) server xid }
    {
        match self {
            Activity::Idle => false,
            Activity::Makes(all) => all.is_outstanding(server, xid),
            Activity::Fences(fence) => fence.is_outstanding(server, xid),
            Activity::Settles { stage, .. } => is_out(xid, *stage)
                && first_is_on(layout.live(), server),
            Activity::Copies { copy, .. } => copy.is_outstanding(server, xid),
        }
    }

    /// The call that is kept outstanding until the next tick, by its server and number.
    pub fn kept_out(&self, live: Mirrors) -> Option<(u32, u32)>
        ensures { result ≡ kept_by live (plain_activity self.now) }
    {
        match self {
            Activity::Idle => None,
            Activity::Makes(all) => all.kept_out(),
            Activity::Fences(fence) => fence.kept_out(),
            Activity::Settles { stage, .. } => kept_commit(*stage, live),
            Activity::Copies { copy, .. } => copy.kept_out(),
        }
    }
}

/// The next CREATE of a new file, by uid 0.
fn send_create(all: &mut Creations, layout: FileState, xid: u32) -> Option<FileCall>
    ensures sends { SendsFileCall (record { layout = layout; activity = Makes all.old }) xid result (record { layout = layout; activity = Makes all.new }) }
    ensures size { length all.new.items ≡ length all.old.items }
{
    let (server, name, owner) = all.next_call(xid)?;
    Some(FileCall {
        server,
        uid: 0,
        call: FileCallKind::Create { name, owner },
    })
}

/// The next SETATTR of a fence, by uid 0.
fn send_set(fence: &mut Fence, layout: FileState, xid: u32) -> Option<FileCall>
    ensures { SendsFileCall (record { layout = layout; activity = Fences fence.old }) xid result (record { layout = layout; activity = Fences fence.new }) }
{
    let set = fence.send_next(xid)?;
    Some(FileCall {
        server: set.id.server,
        uid: 0,
        call: FileCallKind::SetAttr {
            fileid: set.id.fileid,
            owner: set.owner,
            guard: set.guard,
        },
    })
}

/// The COMMIT of the first live mirror, by uid 0.
fn send_commit(stage: &mut CallStage, layout: FileState, xid: u32) -> Option<FileCall>
    ensures { SendsFileCall (record { layout = layout; activity = Settles stage.old }) xid result (record { layout = layout; activity = Settles stage.new }) }
{
    if !waits(*stage) {
        return None;
    }
    let source = layout.live().get(0)?;
    *stage = CallStage::Out { xid, timeouts: 0 };
    Some(FileCall {
        server: source.id.server,
        uid: 0,
        call: FileCallKind::Commit {
            fileid: source.id.fileid,
        },
    })
}

/// The next call of a copy.
fn send_copy(copy: &mut Copy, layout: FileState, xid: u32) -> Option<FileCall>
    ensures sends { SendsFileCall (record { layout = layout; activity = Copies copy.old }) xid result (record { layout = layout; activity = Copies copy.new }) }
    ensures copier { copy.new.copier ≡ copy.old.copier }
    ensures fit { CanAllComeIn layout.live copy.old.targets → CanAllComeIn layout.live copy.new.targets }
{
    let sent = copy.send_next(xid)?;
    Some(FileCall {
        server: sent.server,
        uid: sent.uid,
        call: as_file_call(sent.call),
    })
}

/// The call of a copy as one of its file's.
fn as_file_call(call: NextCall) -> FileCallKind
    ensures { result ≡ as_file_call call }
{
    match call {
        NextCall::MakesFile { name, owner } => FileCallKind::Create { name, owner },
        NextCall::WritesPiece { fileid } => FileCallKind::WritePiece { fileid },
        NextCall::ReadsSource { fileid, at } => FileCallKind::Read {
            fileid,
            at,
            count: PIECE_SIZE,
        },
    }
}

/// The server of the first live mirror, where its COMMIT waits.
fn waiting_commit(stage: CallStage, live: Mirrors) -> ArrayVec<u32, 4>
    ensures { result.items ≡ (if waits stage then first_server live else []) }
{
    let mut servers = ArrayVec::new();
    if !waits(stage) {
        return servers;
    }
    if let Some(source) = live.get(0) {
        servers.push(source.id.server);
    }
    servers
}

/// The first live mirror is on this server.
fn first_is_on(live: Mirrors, server: u32) -> bool
    ensures { result ≡ first_is_on live server }
{
    match live.get(0) {
        Some(source) => source.id.server == server,
        None => false,
    }
}

/// The COMMIT of the first live mirror, where it is kept outstanding.
fn kept_commit(stage: CallStage, live: Mirrors) -> Option<(u32, u32)>
    ensures { result ≡ kept_commit live stage }
{
    let source = live.get(0)?;
    kept_out_to(source.id.server, stage)
}
