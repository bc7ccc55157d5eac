//! What each input of the table of phases does to a file. Each step is handed what may be drawn and the entries, also where it
//! draws and enters nothing, so that all have one form of contract.

ghost use Rattle.std.specs.Prelude.{◌≡◌, ◌-◌, ◌<◌, ◌≤◌, Ok};
ghost use Rattle.file_rule.specs.FilePhases.{phase};
ghost use Rattle.file_rule.specs.FilePhases as input;
ghost use Rattle.mds_rows.specs.Draws.{HasFresh};
ghost use Rattle.mds_file.specs.Inputs.{StepsAs};

use crate::mds_file::MdsFile;
use call_stage::stage_at_tick;
use cluster_model::{
    CallStage, CopyKind, Cred, EndCause, Entry, FileId, LeftCause, MirrorId, NodeId, Reported, Tick,
};
use fence::Fence;
use ff_xdr::{Data, NoMemory};
use file_rule::Fresh;
use mds_activity::Activity;
use mds_rows::{ask, finish_own, revoke, take_back, uids_left};

impl MdsFile {
    /// A client asks for a layout for writing.
    pub(crate) fn ask(
        &mut self,
        file: FileId,
        client: u32,
        fresh: &Fresh,
        entries: &mut Vec<Entry>,
    ) -> Result<(), NoMemory>
        requires { HasFresh fresh.now }
        ensures { StepsAs (phase file self.old (input.AsksLayout client) fresh.now) self.old fresh.now entries.old.items result self.new fresh.now entries.new.items }
    {
        entries.reserve(1)?;
        ask(
            file,
            &mut self.layout,
            NodeId::Client(client),
            uids_left(fresh),
            entries,
        );
        Ok(())
    }

    /// A WRITE through the metadata server.
    pub(crate) fn write_own(
        &mut self,
        file: FileId,
        at: u64,
        bytes: &[u8],
        fresh: &Fresh,
        entries: &mut Vec<Entry>,
    ) -> Result<(), NoMemory>
        requires { HasFresh fresh.now }
        ensures { StepsAs (phase file self.old (input.OwnWrite at bytes.now) fresh.now) self.old fresh.now entries.old.items result self.new fresh.now entries.new.items }
    {
        let bytes = Data::of(self.alloc, bytes)?;
        entries.reserve(2)?;
        let cred = self.layout.cred();
        let left = uids_left(fresh);
        if !ask(file, &mut self.layout, NodeId::Mds, left, entries) {
            return Ok(());
        }
        entries.push_reserved(Entry::Sent {
            file,
            cred,
            at,
            bytes,
        });
        Ok(())
    }

    /// Time passes: what is kept is sent again.
    pub(crate) fn tick(&mut self, file: FileId, fresh: &Fresh, entries: &Vec<Entry>)
        ensures { StepsAs (phase file self.old input.Ticks fresh.now) self.old fresh.now entries.now.items (Ok tt) self.new fresh.now entries.now.items }
    {
        match &mut self.activity {
            Activity::Idle => {}
            Activity::Makes(all) => all.tick(),
            Activity::Fences(fence) => fence.tick(),
            Activity::Settles { stage, .. } => *stage = stage_at_tick(*stage),
            Activity::Copies { copy, .. } => copy.tick(),
        }
    }

    /// The layout is to be recalled.
    pub(crate) fn recall(&mut self, file: FileId, fresh: &Fresh, entries: &Vec<Entry>)
        ensures { StepsAs (phase file self.old input.Recall fresh.now) self.old fresh.now entries.now.items (Ok tt) self.new fresh.now entries.now.items }
    {
        self.layout.recall();
    }

    /// A client returns the layout under this uid.
    pub(crate) fn take_back(
        &mut self,
        file: FileId,
        client: u32,
        claimed: Cred,
        reported: Reported,
        fresh: &mut Fresh,
        entries: &mut Vec<Entry>,
    ) -> Result<(), NoMemory>
        requires { HasFresh fresh.old }
        ensures { StepsAs (phase file self.old (input.Returns client claimed reported.places) fresh.old) self.old fresh.old entries.old.items result self.new fresh.new entries.new.items }
    {
        entries.reserve(5)?;
        let next = Cred(fresh.uid);
        if !take_back(
            file,
            &mut self.layout,
            client,
            claimed,
            reported,
            next,
            entries,
        ) {
            return Ok(());
        }
        self.activity = Activity::Fences(Fence::start(self.layout.live(), next));
        fresh.uid += 1;
        Ok(())
    }

    /// The period of a client ends in another way than by a return.
    pub(crate) fn revoke(
        &mut self,
        file: FileId,
        cause: EndCause,
        fresh: &mut Fresh,
        entries: &mut Vec<Entry>,
    ) -> Result<(), NoMemory>
        requires { HasFresh fresh.old }
        ensures { StepsAs (phase file self.old (input.Revokes cause) fresh.old) self.old fresh.old entries.old.items result self.new fresh.new entries.new.items }
    {
        let Some(NodeId::Client(_)) = self.layout.holder() else {
            return Ok(());
        };
        if cause.is_clean() {
            return Ok(());
        }
        entries.reserve(1)?;
        let next = Cred(fresh.uid);
        revoke(file, &mut self.layout, cause, next, entries);
        self.activity = Activity::Fences(Fence::start(self.layout.live(), next));
        fresh.uid += 1;
        Ok(())
    }

    /// The own write of these bytes is over.
    pub(crate) fn finish_own(
        &mut self,
        file: FileId,
        causes: [Option<LeftCause>; 4],
        at: u64,
        bytes: &[u8],
        fresh: &mut Fresh,
        entries: &mut Vec<Entry>,
    ) -> Result<(), NoMemory>
        requires { HasFresh fresh.old }
        ensures { StepsAs (phase file self.old (input.OwnEnds causes at bytes.now) fresh.old) self.old fresh.old entries.old.items result self.new fresh.new entries.new.items }
    {
        let Some(NodeId::Mds) = self.layout.holder() else {
            return Ok(());
        };
        let bytes = Data::of(self.alloc, bytes)?;
        entries.reserve(6)?;
        let next = Cred(fresh.uid);
        finish_own(file, &mut self.layout, causes, at, bytes, next, entries);
        self.activity = Activity::Fences(Fence::start(self.layout.live(), next));
        fresh.uid += 1;
        Ok(())
    }

    /// Mirrors are to be added.
    pub(crate) fn resilver(&mut self, file: FileId, fresh: &Fresh, entries: &Vec<Entry>)
        requires { HasFresh fresh.now }
        ensures { StepsAs (phase file self.old input.Resilver fresh.now) self.old fresh.now entries.now.items (Ok tt) self.new fresh.now entries.now.items }
    {
        let Ok(()) = self.layout.add_mirrors(uids_left(fresh)) else {
            return;
        };
        self.activity = Activity::Settles {
            copies: CopyKind::Adding,
            stage: CallStage::Waits,
        };
    }

    /// An answer to an own write's call showed this ctime at a mirror.
    pub(crate) fn see(
        &mut self,
        file: FileId,
        id: MirrorId,
        seen: Tick,
        fresh: &Fresh,
        entries: &Vec<Entry>,
    )
        ensures { StepsAs (phase file self.old (input.Sees id seen) fresh.now) self.old fresh.now entries.now.items (Ok tt) self.new fresh.now entries.now.items }
    {
        self.layout.saw(id, seen);
    }
}
