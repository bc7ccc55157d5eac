//! What the answers to a file's calls bring, and their timeouts.

ghost use Rattle.std.specs.Prelude.{◌≡◌, true};
ghost use Rattle.cluster_model.specs.DsCalls.{plain_ds_reply};
ghost use Rattle.file_rule.specs.FilePhases.{phase};
ghost use Rattle.file_rule.specs.FilePhases as input;
ghost use Rattle.mds_activity.specs.Activities.{is_making, is_fencing};
ghost use Rattle.mds_file.specs.Inputs.{StepsAs};

use crate::mds_file::MdsFile;
use cluster_model::{DsReply, Entry, FileId};
use ff_xdr::NoMemory;
use file_rule::Fresh;
use mds_activity::{Activity, answer_fence, room_for_ids, step_fence};
use mds_rows::make;
use std::mem;

impl MdsFile {
    /// An answer to a CREATE of a new file.
    pub(crate) fn answer_create(
        &mut self,
        file: FileId,
        xid: u32,
        reply: &DsReply<'_>,
        fresh: &Fresh,
        entries: &mut Vec<Entry>,
    ) -> Result<(), NoMemory>
        requires making { is_making self.old.activity ≡ true }
        ensures { StepsAs (phase file self.old (input.Answers xid (plain_ds_reply reply.now)) fresh.now) self.old fresh.now entries.old.items result self.new fresh.now entries.new.items }
    {
        let room = room_for_ids(self.alloc)?;
        entries.reserve(1)?;
        let Activity::Makes(all) = &mut self.activity else {
            return Ok(());
        };
        if !all.on_reply(xid, reply) || !all.done() {
            return Ok(());
        }
        let live = all.made();
        self.activity = Activity::Idle;
        make(file, &mut self.layout, live, room, entries);
        Ok(())
    }

    /// A timeout of a CREATE.
    pub(crate) fn time_out_create(
        &mut self,
        file: FileId,
        xid: u32,
        fresh: &Fresh,
        entries: &mut Vec<Entry>,
    ) -> Result<(), NoMemory>
        requires making { is_making self.old.activity ≡ true }
        ensures { StepsAs (phase file self.old (input.TimesOut xid) fresh.now) self.old fresh.now entries.old.items result self.new fresh.now entries.new.items }
    {
        let room = room_for_ids(self.alloc)?;
        entries.reserve(1)?;
        let Activity::Makes(all) = &mut self.activity else {
            return Ok(());
        };
        if !all.on_timeout(xid) || !all.done() {
            return Ok(());
        }
        let live = all.made();
        self.activity = Activity::Idle;
        make(file, &mut self.layout, live, room, entries);
        Ok(())
    }

    /// An answer to a SETATTR of the fence.
    pub(crate) fn answer_fence(
        &mut self,
        file: FileId,
        xid: u32,
        reply: &DsReply<'_>,
        fresh: &Fresh,
        entries: &mut Vec<Entry>,
    ) -> Result<(), NoMemory>
        requires fencing { is_fencing self.old.activity ≡ true }
        ensures { StepsAs (phase file self.old (input.Answers xid (plain_ds_reply reply.now)) fresh.now) self.old fresh.now entries.old.items result self.new fresh.now entries.new.items }
    {
        let fenced = room_for_ids(self.alloc)?;
        let free = room_for_ids(self.alloc)?;
        entries.reserve(3)?;
        let Activity::Fences(fence) = mem::replace(&mut self.activity, Activity::Idle) else {
            return Ok(());
        };
        self.activity = answer_fence(
            file,
            &mut self.layout,
            fence,
            xid,
            reply,
            fenced,
            free,
            entries,
        );
        Ok(())
    }

    /// A timeout of a SETATTR of the fence.
    pub(crate) fn time_out_fence(
        &mut self,
        file: FileId,
        xid: u32,
        fresh: &Fresh,
        entries: &mut Vec<Entry>,
    ) -> Result<(), NoMemory>
        requires fencing { is_fencing self.old.activity ≡ true }
        ensures { StepsAs (phase file self.old (input.TimesOut xid) fresh.now) self.old fresh.now entries.old.items result self.new fresh.now entries.new.items }
    {
        let fenced = room_for_ids(self.alloc)?;
        let free = room_for_ids(self.alloc)?;
        entries.reserve(3)?;
        let Activity::Fences(fence) = mem::replace(&mut self.activity, Activity::Idle) else {
            return Ok(());
        };
        let mut fence = fence;
        let step = fence.on_timeout(xid);
        self.activity = step_fence(file, &mut self.layout, fence, step, fenced, free, entries);
        Ok(())
    }
}
