//! What the answers to the COMMIT of a source bring, and its timeouts.

ghost use Rattle.std.specs.Prelude.{◌≡◌, true};
ghost use Rattle.cluster_model.specs.DsCalls.{plain_ds_reply};
ghost use Rattle.file_rule.specs.FilePhases.{phase};
ghost use Rattle.file_rule.specs.FilePhases as input;
ghost use Rattle.mds_activity.specs.Activities.{is_settling};
ghost use Rattle.mds_rows.specs.Draws.{HasFresh};
ghost use Rattle.mds_file.specs.Inputs.{StepsAs};

use crate::mds_file::MdsFile;
use call_stage::is_out;
use cluster_model::{CallStage, DsReply, Entry, FileId, LeftCause, MAX_TIMEOUTS};
use ff_xdr::NoMemory;
use file_rule::Fresh;
use mds_activity::{
    Activity, after_loss, begin_copy, commit_failed, lose_source, room_for_ids, see_at_source,
    shown_by_commit,
};

impl MdsFile {
    /// A timeout of the COMMIT of the source.
    pub(crate) fn time_out_commit(
        &mut self,
        file: FileId,
        xid: u32,
        fresh: &Fresh,
        entries: &mut Vec<Entry>,
    ) -> Result<(), NoMemory>
        requires settling { is_settling self.old.activity ≡ true }
        ensures { StepsAs (phase file self.old (input.TimesOut xid) fresh.now) self.old fresh.now entries.old.items result self.new fresh.now entries.new.items }
    {
        entries.reserve(1)?;
        let Activity::Settles { copies, stage } = self.activity else {
            return Ok(());
        };
        if !is_out(xid, stage) {
            return Ok(());
        }
        let CallStage::Out { xid, timeouts } = stage else {
            return Ok(());
        };
        if timeouts < MAX_TIMEOUTS - 1 {
            let timeouts = timeouts + 1;
            let stage = CallStage::Out { xid, timeouts };
            self.activity = Activity::Settles { copies, stage };
            return Ok(());
        }
        let left = lose_source(file, &mut self.layout, copies, LeftCause::Timeouts, entries);
        let stage = after_loss(left, CallStage::KeptOut { xid });
        self.activity = Activity::Settles { copies, stage };
        Ok(())
    }

    /// An answer to the COMMIT of the source.
    pub(crate) fn answer_commit(
        &mut self,
        file: FileId,
        xid: u32,
        reply: &DsReply<'_>,
        fresh: &mut Fresh,
        entries: &mut Vec<Entry>,
    ) -> Result<(), NoMemory>
        requires drawn { HasFresh fresh.old }
        requires settling { is_settling self.old.activity ≡ true }
        ensures { StepsAs (phase file self.old (input.Answers xid (plain_ds_reply reply.now)) fresh.old) self.old fresh.old entries.old.items result self.new fresh.new entries.new.items }
    {
        let room = room_for_ids(self.alloc)?;
        entries.reserve(1)?;
        let Activity::Settles { copies, stage } = self.activity else {
            return Ok(());
        };
        if !is_out(xid, stage) {
            return Ok(());
        }
        see_at_source(&mut self.layout, shown_by_commit(reply));
        let Some(cause) = commit_failed(reply) else {
            self.activity = begin_copy(
                self.alloc,
                file,
                &mut self.layout,
                copies,
                room,
                fresh,
                entries,
            );
            return Ok(());
        };
        let left = lose_source(file, &mut self.layout, copies, cause, entries);
        let stage = after_loss(left, CallStage::KeptBack);
        self.activity = Activity::Settles { copies, stage };
        Ok(())
    }
}
