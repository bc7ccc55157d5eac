//! What comes to a file, by its kind.

ghost use Rattle.std.specs.Prelude.{◌≡◌};
ghost use Rattle.cluster_model.specs.DsCalls.{plain_ds_reply};
ghost use Rattle.file_rule.specs.FilePhases.{phase};
ghost use Rattle.file_rule.specs.FilePhases as input;
ghost use Rattle.mds_rows.specs.Draws.{HasFresh};
ghost use Rattle.mds_file.specs.Inputs.{StepsAs, plain_input};

use crate::input::FileInput;
use crate::mds_file::MdsFile;
use cluster_model::{DsReply, Entry, FileId};
use ff_xdr::NoMemory;
use file_rule::Fresh;
use mds_activity::Activity;

impl MdsFile {
    /// What comes to the file: a row of the table of phases (RFC 8435, section 2.2; RFC 8881, sections 12.5.5, 18.43 and
    /// 18.44), or an answer or a timeout of one of its calls. A number under which no call is outstanding changes nothing.
    ///
    /// # Errors
    /// `NoMemory`, and nothing has changed: the input may be handed in again.
    pub fn take(
        &mut self,
        file: FileId,
        input: FileInput<'_>,
        fresh: &mut Fresh,
        entries: &mut Vec<Entry>,
    ) -> Result<(), NoMemory>
        requires { HasFresh fresh.old }
        ensures { StepsAs (phase file self.old (plain_input input.entry) fresh.old) self.old fresh.old entries.old.items result self.new fresh.new entries.new.items }
    {
        match input {
            FileInput::AsksLayout { client } => self.ask(file, client, fresh, entries),
            FileInput::OwnWrite { at, bytes } => self.write_own(file, at, bytes, fresh, entries),
            FileInput::Recall => {
                self.recall(file, fresh, entries);
                Ok(())
            }
            FileInput::Returns {
                client,
                claimed,
                reported,
            } => self.take_back(file, client, claimed, reported, fresh, entries),
            FileInput::Revokes(cause) => self.revoke(file, cause, fresh, entries),
            FileInput::OwnEnds { causes, at, bytes } => {
                self.finish_own(file, causes, at, bytes, fresh, entries)
            }
            FileInput::Resilver => {
                self.resilver(file, fresh, entries);
                Ok(())
            }
            FileInput::Answers { xid, reply } => self.answer(file, xid, &reply, fresh, entries),
            FileInput::TimesOut(xid) => self.time_out(file, xid, fresh, entries),
            FileInput::Ticks => {
                self.tick(file, fresh, entries);
                Ok(())
            }
            FileInput::Sees { id, seen } => {
                self.see(file, id, seen, fresh, entries);
                Ok(())
            }
        }
    }

    /// An answer to the call of this number.
    fn answer(
        &mut self,
        file: FileId,
        xid: u32,
        reply: &DsReply<'_>,
        fresh: &mut Fresh,
        entries: &mut Vec<Entry>,
    ) -> Result<(), NoMemory>
        requires { HasFresh fresh.old }
        ensures { StepsAs (phase file self.old (input.Answers xid (plain_ds_reply reply.now)) fresh.old) self.old fresh.old entries.old.items result self.new fresh.new entries.new.items }
    {
        match &self.activity {
            Activity::Idle => Ok(()),
            Activity::Makes(_) => self.answer_create(file, xid, reply, fresh, entries),
            Activity::Fences(_) => self.answer_fence(file, xid, reply, fresh, entries),
            Activity::Settles { .. } => self.answer_commit(file, xid, reply, fresh, entries),
            Activity::Copies { .. } => self.answer_copy(file, xid, reply, fresh, entries),
        }
    }

    /// A timeout of the call of this number.
    fn time_out(
        &mut self,
        file: FileId,
        xid: u32,
        fresh: &mut Fresh,
        entries: &mut Vec<Entry>,
    ) -> Result<(), NoMemory>
        requires { HasFresh fresh.old }
        ensures { StepsAs (phase file self.old (input.TimesOut xid) fresh.old) self.old fresh.old entries.old.items result self.new fresh.new entries.new.items }
    {
        match &self.activity {
            Activity::Idle => Ok(()),
            Activity::Makes(_) => self.time_out_create(file, xid, fresh, entries),
            Activity::Fences(_) => self.time_out_fence(file, xid, fresh, entries),
            Activity::Settles { .. } => self.time_out_commit(file, xid, fresh, entries),
            Activity::Copies { .. } => self.time_out_copy(file, xid, fresh, entries),
        }
    }
}
