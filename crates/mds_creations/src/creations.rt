//! The files that are made at data servers for a new file.

ghost use Rattle.std.specs.Prelude.{◌≡◌, ◌≤◌, ◌<◌, ◌==◌, ◌&&◌, true, not, length, map, filter, position, nat_lt, is_some, if◌then◌else◌};
ghost use Rattle.std.specs.List.{list_any, list_all, flat_map, find};
ghost use Rattle.std.specs.Option.{option_to_list};
ghost use Rattle.cluster_model.specs.DsCalls.{plain_ds_reply};
ghost use Rattle.cluster_model.specs.Fences.{waits, is_out, is_over, stage_at_tick};
ghost use Rattle.cluster_model.specs.declared.call_stage.CallStage.TheVariants as stage;
ghost use Rattle.copy_rule.specs.Copies.{is_given_up};
ghost use Rattle.file_rule.specs.MdsFiles.{in_stage, all_made, standing, creation_of};
ghost use Rattle.file_rule.specs.FilePhases.{creations_at, all_at_tick, creation_is_out};
ghost use Rattle.call_stage.specs.KeptCalls.{is_kept_out};
ghost use Rattle.mds_creations.specs.Makings.{are_different, SendsCreate, answered_with, late_with, answered_at, late_at, servers_waiting, kept_out};

use arrayvec::ArrayVec;
use call_stage::{is_kept_out, is_out, is_over, kept_out_to, stage_at_tick, waits};
use cluster_model::{CallStage, Cred, DsReply, MAX_TIMEOUTS, Mirror, MirrorId, Mirrors};
use file_rule::Creation;
use std::marker::Model;

/// A CREATE at each data server of a new file, for its first user, until it is answered or given up; the last one is kept
/// (RFC 8435, section 2.2; RFC 1813, section 3.3.8). No call of it takes memory.
#[derive(Debug, Drop)]
pub struct Creations {
    owner: Cred,
    items: ArrayVec<Creation, 4>,
}

impl Model for Creations {
    ghost use Rattle.file_rule.specs.MdsFiles.{Creations};
    ghost use Rattle.mds_creations.specs.Makings.{AreCreations};

    ghost Value = { Creations };

    ghost view = { λ c. record { owner = c.owner.0; items = c.items.items } };

    ghost invariant = { λ c. AreCreations c.items.items };
}

impl Creations {
    /// A CREATE waits at each of these servers, of the file under the name of this number, for this owner.
    pub fn start(owner: Cred, name: u64, servers: &[u32]) -> Creations
        requires some { 1 ≤ length servers.now }
        requires few { length servers.now ≤ 4 }
        requires apart { are_different servers.now ≡ true }
        ensures { result ≡ record { owner = owner.0; items = creations_at name servers.now } }
    {
        let mut items = ArrayVec::new();
        for server in servers {
            items.push(Creation {
                server: *server,
                name,
                stage: CallStage::Waits,
                made: None,
            });
        }
        Creations { owner, items }
    }

    /// The first CREATE that waits is outstanding from now on under this number: its server, the number in its name, and
    /// the owner.
    pub fn next_call(&mut self, xid: u32) -> Option<(u32, u64, Cred)>
        ensures { SendsCreate self.old xid result self.new }
    {
        let place = waiting(self.items.as_slice())?;
        let creation = self.items[place];
        self.items[place] = in_stage(creation, CallStage::Out { xid, timeouts: 0 });
        Some((creation.server, creation.name, self.owner))
    }

    /// An answer to the CREATE of this number; false, with nothing changed, where none is outstanding.
    pub fn on_reply(&mut self, xid: u32, reply: &DsReply<'_>) -> bool
        ensures known { result ≡ is_some (creation_of self.old xid) }
        ensures answered { self.new ≡ answered_at self.old (plain_ds_reply reply.now) (creation_of self.old xid) }
        ensures size { length self.new.items ≡ length self.old.items }
    {
        let Some(place) = outstanding(xid, self.items.as_slice()) else {
            return false;
        };
        let spare = has_spare(self.items.as_slice());
        self.items[place] = answered(spare, self.items[place], reply);
        true
    }

    /// A timeout of the CREATE of this number; false, with nothing changed, where none is outstanding.
    pub fn on_timeout(&mut self, xid: u32) -> bool
        ensures known { result ≡ is_some (creation_of self.old xid) }
        ensures late { self.new ≡ late_at self.old (creation_of self.old xid) }
        ensures size { length self.new.items ≡ length self.old.items }
    {
        let Some(place) = outstanding(xid, self.items.as_slice()) else {
            return false;
        };
        let spare = has_spare(self.items.as_slice());
        self.items[place] = timed_out(spare, self.items[place]);
        true
    }

    /// Time passes: what was kept is sent again.
    pub fn tick(&mut self)
        ensures { self.new ≡ all_at_tick self.old }
    {
        tick_all(self.items.as_mut_slice());
    }

    /// Each CREATE was answered or given up.
    pub fn done(&self) -> bool
        ensures { result ≡ list_all (λ c. is_over c.stage) self.now.items }
    {
        are_over(self.items.as_slice())
    }

    /// A CREATE of this number is outstanding to this server.
    pub fn is_outstanding(&self, server: u32, xid: u32) -> bool
        ensures { result ≡ creation_is_out self.now server xid }
    {
        is_out_to(server, xid, self.items.as_slice())
    }

    /// The servers to which a CREATE waits, in order: the first is that of the next call.
    pub fn waiting_servers(&self) -> ArrayVec<u32, 4>
        ensures { result.items ≡ servers_waiting self.now }
    {
        servers_of_waiting(self.items.as_slice())
    }

    /// The CREATE that is kept outstanding until the next tick, by its server and number: the first of them.
    pub fn kept_out(&self) -> Option<(u32, u32)>
        ensures { result ≡ kept_out self.now }
    {
        let creation = kept(self.items.as_slice())?;
        kept_out_to(creation.server, creation.stage)
    }

    /// The mirrors that were made, in order: at least one, once each CREATE was answered or given up.
    pub fn made(&self) -> Mirrors
        requires done { list_all (λ c. is_over c.stage) self.now.items ≡ true }
        ensures made { result ≡ all_made self.now }
        ensures some { 1 ≤ length result }
        ensures few { length result ≤ length self.now.items }
    {
        match Mirrors::of(made_of(self.items.as_slice()).as_slice()) {
            Some(live) => live,
            None => Mirrors::none(),
        }
    }
}

/// The files that were made, in order.
fn made_of(items: &[Creation]) -> ArrayVec<Mirror, 4>
    requires few { length items.now ≤ 4 }
    ensures { result.items ≡ flat_map (λ c. option_to_list c.made) items.now }
{
    let mut made = ArrayVec::new();
    for item in items {
        if let Some(mirror) = item.made {
            made.push(mirror);
        }
    }
    made
}

/// The creation, with its CREATE at another stage.
fn in_stage(creation: Creation, stage: CallStage) -> Creation
    ensures { result ≡ in_stage creation stage }
{
    Creation { stage, ..creation }
}

/// Where a CREATE stands that failed: it is given up, but for the last one.
fn failed(spare: bool, kept: CallStage) -> CallStage
    ensures { result ≡ (if spare then stage.GivenUp else kept) }
{
    if spare { CallStage::GivenUp } else { kept }
}

/// What an answer makes of a creation, where others are made or under way or not.
fn answered(spare: bool, creation: Creation, reply: &DsReply<'_>) -> Creation
    ensures { result ≡ answered_with spare creation (plain_ds_reply reply.now) }
{
    let DsReply::Created { fileid, shown } = *reply else {
        return in_stage(creation, failed(spare, CallStage::KeptBack));
    };
    let id = MirrorId {
        server: creation.server,
        fileid,
    };
    Creation {
        stage: CallStage::Done,
        made: Some(Mirror {
            id,
            seen: shown.seen,
        }),
        ..creation
    }
}

/// What a timeout makes of a creation.
fn timed_out(spare: bool, creation: Creation) -> Creation
    ensures { result ≡ late_with spare creation }
{
    let stage = match creation.stage {
        CallStage::Out { xid, timeouts } if timeouts >= MAX_TIMEOUTS - 1 => {
            failed(spare, CallStage::KeptOut { xid })
        }
        CallStage::Out { xid, timeouts } => CallStage::Out {
            xid,
            timeouts: timeouts + 1,
        },
        other => other,
    };
    in_stage(creation, stage)
}

/// More than one is made or under way.
fn has_spare(items: &[Creation]) -> bool
    ensures { result ≡ nat_lt 1 (length (filter (λ c. not (is_given_up c.stage)) items.now)) }
{
    let mut standing: usize = 0;
    for item in items {
        if !is_given_up(item.stage) {
            standing += 1;
        }
    }
    standing > 1
}

/// The place of the first CREATE that waits.
fn waiting(items: &[Creation]) -> Option<usize>
    ensures { result ≡ position (λ c. waits c.stage) items.now }
{
    for (place, item) in items.iter().enumerate() {
        if waits(item.stage) {
            return Some(place);
        }
    }
    None
}

/// The place of the CREATE of this number.
fn outstanding(xid: u32, items: &[Creation]) -> Option<usize>
    ensures { result ≡ position (λ c. is_out xid c.stage) items.now }
{
    for (place, item) in items.iter().enumerate() {
        if is_out(xid, item.stage) {
            return Some(place);
        }
    }
    None
}

/// Each CREATE is over.
fn are_over(items: &[Creation]) -> bool
    ensures { result ≡ list_all (λ c. is_over c.stage) items.now }
{
    for item in items {
        if !is_over(item.stage) {
            return false;
        }
    }
    true
}

/// One of them is outstanding to this server under this number.
fn is_out_to(server: u32, xid: u32, items: &[Creation]) -> bool
    ensures { result ≡ list_any (λ c. c.server == server && is_out xid c.stage) items.now }
{
    for item in items {
        if item.server == server && is_out(xid, item.stage) {
            return true;
        }
    }
    false
}

/// The servers to which a CREATE waits.
fn servers_of_waiting(items: &[Creation]) -> ArrayVec<u32, 4>
    requires few { length items.now ≤ 4 }
    ensures { result.items ≡ map (λ c. c.server) (filter (λ c. waits c.stage) items.now) }
{
    let mut servers = ArrayVec::new();
    for item in items {
        if waits(item.stage) {
            servers.push(item.server);
        }
    }
    servers
}

/// The first whose CREATE is kept outstanding.
fn kept(items: &[Creation]) -> Option<Creation>
    ensures { result ≡ find (λ c. is_kept_out c.stage) items.now }
{
    for item in items {
        if is_kept_out(item.stage) {
            return Some(*item);
        }
    }
    None
}

/// A tick at each of them.
fn tick_all(items: &mut [Creation])
    ensures { items.new ≡ map (λ c. in_stage c (stage_at_tick c.stage)) items.old }
{
    for item in items {
        *item = at_tick(*item);
    }
}

/// A creation after a tick.
fn at_tick(creation: Creation) -> Creation
    ensures { result ≡ in_stage creation (stage_at_tick creation.stage) }
{
    in_stage(creation, stage_at_tick(creation.stage))
}

/// It was given up.
fn is_given_up(stage: CallStage) -> bool
    ensures { result ≡ is_given_up stage }
{
    matches!(stage, CallStage::GivenUp)
}
