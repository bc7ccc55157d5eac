//! What the answers to the calls of a copy bring, and their timeouts.

ghost use Rattle.std.specs.Prelude.{◌≡◌, true};
ghost use Rattle.cluster_model.specs.DsCalls.{plain_ds_reply};
ghost use Rattle.file_rule.specs.FilePhases.{phase};
ghost use Rattle.file_rule.specs.FilePhases as input;
ghost use Rattle.mds_activity.specs.Activities.{is_copying};
ghost use Rattle.mds_rows.specs.Draws.{HasFresh};
ghost use Rattle.mds_file.specs.Inputs.{StepsAs};

use crate::mds_file::MdsFile;
use cluster_model::{DsReply, Entry, FileId};
use ff_xdr::NoMemory;
use file_rule::Fresh;
use mds_activity::{Activity, room_for_ids, step_copy, take_reply, take_timeout};
use std::mem;

impl MdsFile {
    /// An answer to a call of the copy.
    pub(crate) fn answer_copy(
        &mut self,
        file: FileId,
        xid: u32,
        reply: &DsReply<'_>,
        fresh: &mut Fresh,
        entries: &mut Vec<Entry>,
    ) -> Result<(), NoMemory>
        requires drawn { HasFresh fresh.old }
        requires copying { is_copying self.old.activity ≡ true }
        ensures { StepsAs (phase file self.old (input.Answers xid (plain_ds_reply reply.now)) fresh.old) self.old fresh.old entries.old.items result self.new fresh.new entries.new.items }
    {
        let room = room_for_ids(self.alloc)?;
        entries.reserve(5)?;
        let layout = self.layout;
        let Activity::Copies {
            copier,
            copies,
            copy,
        } = mem::replace(&mut self.activity, Activity::Idle)
        else {
            return Ok(());
        };
        let mut copy = copy;
        let step = match take_reply(layout, copier, copies, &mut copy, xid, reply) {
            Ok(step) => step,
            Err(e) => {
                self.activity = Activity::Copies {
                    copier,
                    copies,
                    copy,
                };
                return Err(e);
            }
        };
        self.activity = step_copy(
            file,
            &mut self.layout,
            copier,
            copies,
            copy,
            step,
            room,
            fresh,
            entries,
        );
        Ok(())
    }

    /// A timeout of a call of the copy.
    pub(crate) fn time_out_copy(
        &mut self,
        file: FileId,
        xid: u32,
        fresh: &mut Fresh,
        entries: &mut Vec<Entry>,
    ) -> Result<(), NoMemory>
        requires drawn { HasFresh fresh.old }
        requires copying { is_copying self.old.activity ≡ true }
        ensures { StepsAs (phase file self.old (input.TimesOut xid) fresh.old) self.old fresh.old entries.old.items result self.new fresh.new entries.new.items }
    {
        let room = room_for_ids(self.alloc)?;
        entries.reserve(5)?;
        let layout = self.layout;
        let Activity::Copies {
            copier,
            copies,
            copy,
        } = mem::replace(&mut self.activity, Activity::Idle)
        else {
            return Ok(());
        };
        let mut copy = copy;
        let step = take_timeout(layout, copier, copies, &mut copy, xid);
        self.activity = step_copy(
            file,
            &mut self.layout,
            copier,
            copies,
            copy,
            step,
            room,
            fresh,
            entries,
        );
        Ok(())
    }
}
