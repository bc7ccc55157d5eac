//! A fence over the mirrors of one file.

ghost use Rattle.std.specs.Prelude.{◌≡◌, ◌≤◌, ◌==◌, ◌&&◌, List, length, map, filter, position};
ghost use Rattle.std.specs.List.{list_all, list_any, find};
ghost use Rattle.cluster_model.specs.DsCalls.{plain_ds_reply};
ghost use Rattle.cluster_model.specs.Fences.{fence_of, waits, is_out, is_over, on_reply, on_timeout, after_tick, without, is_done, at_tick, dropped_if};
ghost use Rattle.call_stage.specs.KeptCalls.{is_kept_out};
ghost use Rattle.fence.specs.Calls.{SendsNext, SendsSet, mirror_out, is_outstanding, servers_waiting, kept_out};

use crate::mirror::{answered, at_tick, dropped_if, timed_out, to_fence, with_stage};
use arrayvec::ArrayVec;
use call_stage::{is_kept_out, is_out, is_over, kept_out_to, waits};
use cluster_model::{
    CallStage, Cred, DsCall, DsReply, FenceMirror, FenceStep, MirrorId, Mirrors, Tick,
};
use std::marker::Model;

/// At each mirror of a file a SETATTR of owner and group to a fresh uid, guarded by the ctime last seen there, until the
/// mirror acknowledges it or is given up (RFC 8435, section 2.2; RFC 1813, section 3.3.2). At most one call is outstanding
/// a mirror. No call of it takes memory.
#[derive(Debug, Drop)]
pub struct Fence {
    cred: Cred,
    mirrors: ArrayVec<FenceMirror, 4>,
}

/// A SETATTR of a fence: of owner and group of this mirror, guarded by the ctime last seen there.
#[derive(Clone, Copy, Debug, PartialEq, Eq)]
pub struct FenceSet {
    pub id: MirrorId,
    pub owner: Cred,
    pub guard: Tick,
}

impl Model for Fence {
    ghost use Rattle.cluster_model.specs.Fences.{FenceState};

    ghost Value = { FenceState };

    ghost view = { λ f. record { cred = f.cred.0; mirrors = f.mirrors.items } };
}

impl Fence {
    /// The fence of these mirrors to this uid: a call to each of them waits.
    pub fn start(mirrors: Mirrors, cred: Cred) -> Fence
        ensures { result ≡ fence_of mirrors cred.0 }
    {
        let mut all = ArrayVec::new();
        for place in 0..mirrors.len() {
            let Some(mirror) = mirrors.get(place) else {
                return Fence { cred, mirrors: all };
            };
            all.push(to_fence(mirror));
        }
        Fence { cred, mirrors: all }
    }

    /// The call to the first mirror to which one waits, which is outstanding from now on under this number; `None` where
    /// none waits. No call of this number is outstanding in the fence.
    pub fn next_call(&mut self, xid: u32) -> Option<(MirrorId, DsCall<'static>)>
        ensures { SendsNext self.old xid result self.new }
    {
        let set = self.send_next(xid)?;
        let call = DsCall::SetAttr {
            fileid: set.id.fileid,
            owner: set.owner,
            guard: set.guard,
        };
        Some((set.id, call))
    }

    /// The same, by its parts.
    pub fn send_next(&mut self, xid: u32) -> Option<FenceSet>
        ensures { SendsSet self.old xid result self.new }
    {
        let place = waiting(self.mirrors.as_slice())?;
        let mirror = self.mirrors[place];
        self.mirrors[place] = with_stage(mirror, CallStage::Out { xid, timeouts: 0 });
        Some(FenceSet {
            id: mirror.id,
            owner: self.cred,
            guard: mirror.seen,
        })
    }

    /// What the answer to the call of this number comes to: `Stranger` where none is outstanding.
    pub fn on_reply(&mut self, xid: u32, reply: &DsReply<'_>) -> FenceStep
        ensures { record { fence = self.new; step = result } ≡ on_reply self.old xid (plain_ds_reply reply.now) }
    {
        let Some(place) = outstanding(xid, self.mirrors.as_slice()) else {
            return FenceStep::Stranger;
        };
        let (mirror, step) = answered(self.cred, self.mirrors[place], reply);
        self.mirrors[place] = mirror;
        step
    }

    /// What a timeout of the call of this number comes to: `Stranger` where none is outstanding, `Again` where the same
    /// record is to be sent again or, where the mirror is kept until the next tick, nothing.
    pub fn on_timeout(&mut self, xid: u32) -> FenceStep
        ensures { record { fence = self.new; step = result } ≡ on_timeout self.old xid }
    {
        let Some(place) = outstanding(xid, self.mirrors.as_slice()) else {
            return FenceStep::Stranger;
        };
        let (mirror, step) = timed_out(self.mirrors[place]);
        self.mirrors[place] = mirror;
        step
    }

    /// Time passes: a mirror that failed and was not given up begins again. Where its call is still outstanding the same
    /// record is to be sent again.
    pub fn tick(&mut self)
        ensures { self.new ≡ after_tick self.old }
    {
        tick_all(self.mirrors.as_mut_slice());
    }

    /// The mirror is given up; nothing where it is none of the fence.
    pub fn drop_mirror(&mut self, id: MirrorId)
        ensures { self.new ≡ without self.old id }
    {
        drop_all(id, self.mirrors.as_mut_slice());
    }

    /// The mirror whose call of this number is outstanding.
    pub fn mirror_out(&self, xid: u32) -> Option<MirrorId>
        ensures { result ≡ mirror_out self.now xid }
    {
        let place = outstanding(xid, self.mirrors.as_slice())?;
        Some(self.mirrors[place].id)
    }

    /// A call of this number is outstanding to this server.
    pub fn is_outstanding(&self, server: u32, xid: u32) -> bool
        ensures { result ≡ is_outstanding self.now server xid }
    {
        is_out_to(server, xid, self.mirrors.as_slice())
    }

    /// The servers to which a call waits, in order: the first is that of the next call.
    pub fn waiting_servers(&self) -> ArrayVec<u32, 4>
        ensures { result.items ≡ servers_waiting self.now }
    {
        servers_of_waiting(self.mirrors.as_slice())
    }

    /// The call that is kept outstanding until the next tick, by its server and number: the first of them.
    pub fn kept_out(&self) -> Option<(u32, u32)>
        ensures { result ≡ kept_out self.now }
    {
        let mirror = kept(self.mirrors.as_slice())?;
        kept_out_to(mirror.id.server, mirror.stage)
    }

    /// Each mirror acknowledged or was given up.
    pub fn done(&self) -> bool
        ensures { result ≡ is_done self.now }
    {
        are_over(self.mirrors.as_slice())
    }
}

/// The place of the first mirror to which a call waits.
fn waiting(mirrors: &[FenceMirror]) -> Option<usize>
    ensures { result ≡ position (λ m. waits m.stage) mirrors.now }
{
    for (place, mirror) in mirrors.iter().enumerate() {
        if waits(mirror.stage) {
            return Some(place);
        }
    }
    None
}

/// The place of the mirror whose call has this number.
fn outstanding(xid: u32, mirrors: &[FenceMirror]) -> Option<usize>
    ensures { result ≡ position (λ m. is_out xid m.stage) mirrors.now }
{
    for (place, mirror) in mirrors.iter().enumerate() {
        if is_out(xid, mirror.stage) {
            return Some(place);
        }
    }
    None
}

/// One of them is outstanding to this server under this number.
fn is_out_to(server: u32, xid: u32, mirrors: &[FenceMirror]) -> bool
    ensures { result ≡ list_any (λ m. m.id.server == server && is_out xid m.stage) mirrors.now }
{
    for mirror in mirrors {
        if mirror.id.server == server && is_out(xid, mirror.stage) {
            return true;
        }
    }
    false
}

/// The servers to which a call waits.
fn servers_of_waiting(mirrors: &[FenceMirror]) -> ArrayVec<u32, 4>
    requires few { length mirrors.now ≤ 4 }
    ensures { result.items ≡ map (λ m. m.id.server) (filter (λ m. waits m.stage) mirrors.now) }
{
    let mut servers = ArrayVec::new();
    for mirror in mirrors {
        if waits(mirror.stage) {
            servers.push(mirror.id.server);
        }
    }
    servers
}

/// The first whose call is kept outstanding.
fn kept(mirrors: &[FenceMirror]) -> Option<FenceMirror>
    ensures { result ≡ find (λ m. is_kept_out m.stage) mirrors.now }
{
    for mirror in mirrors {
        if is_kept_out(mirror.stage) {
            return Some(*mirror);
        }
    }
    None
}

/// Each call is over.
fn are_over(mirrors: &[FenceMirror]) -> bool
    ensures { result ≡ list_all (λ m. is_over m.stage) mirrors.now }
{
    for mirror in mirrors {
        if !is_over(mirror.stage) {
            return false;
        }
    }
    true
}

/// A tick at each mirror.
fn tick_all(mirrors: &mut [FenceMirror])
    ensures { mirrors.new ≡ map at_tick mirrors.old }
{
    for mirror in mirrors {
        *mirror = at_tick(*mirror);
    }
}

/// The mirror of this name is given up.
fn drop_all(id: MirrorId, mirrors: &mut [FenceMirror])
    ensures { mirrors.new ≡ map (dropped_if id) mirrors.old }
{
    for mirror in mirrors {
        *mirror = dropped_if(id, *mirror);
    }
}
