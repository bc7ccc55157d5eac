//! A file of a metadata server.

ghost use Rattle.std.specs.Prelude.{◌≡◌, ◌≤◌, ◌+◌, true, length, OnOk, IfOk};
ghost use Rattle.std.specs.List.{list_any};
ghost use Rattle.cluster_model.specs.Phases.{holder_of};
ghost use Rattle.cluster_model.specs.declared.limits.TheConstants.{MAX_FILE, PIECE_SIZE};
ghost use Rattle.cluster_model.specs.DsCalls.{plain_ds_call, plain_ds_reply};
ghost use Rattle.ds_calls.specs.GivenReplies.{HasFewBytes};
ghost use Rattle.file_rule.specs.FilePhases.{phase};
ghost use Rattle.mds_rows.specs.Draws.{HasFresh};
ghost use Rattle.mds_file.specs.Inputs.{plain_input, is_idle};
ghost use Rattle.mds_io.specs.Reads as read;
ghost use Rattle.mds_io.specs.OwnWrites.{after_own_reply};
ghost use Rattle.mirror_writer.specs.Writers as writer;
ghost use Rattle.mds_rule.specs.MdsStates.{size_served};
ghost use Rattle.mds_rule.specs.ServedFiles.{sizes_in, kept_holder, is_period_end};
ghost use Rattle.mds_rule.specs.FileOps.{new_served, with_read, with_write};
ghost use Rattle.mds_rule.specs.LayoutOps.{with_holder};
ghost use Rattle.mds_rule.specs.Answers.{is_read_out, is_writer_out, sized, fileid_of, attributes_shown};
ghost use Rattle.served_files.specs.Waiting.{StepsRead, GivesFew, StepsWrite, WriteTaken};
ghost use Rattle.served_files.specs.FileSteps.{TakesStep, heard};
ghost use Rattle.served_files.specs.Quiet.{IsFileStill};

use crate::reading::EndedRead;
use crate::waiting_reads::WaitingReads;
use crate::writing::{EndedWrite, WaitingWrite, causes_of, has_failed_everywhere};
use cluster_model::{DsCall, DsReply, Entry, FileId, MirrorId, Phase};
use compound_run::KeptRun;
use ff_xdr::{Data, NoMemory};
use file_notes::{
    attributes_shown, count_periods, fileid_of, has_period_end, keep_live, set_size, size_of_first,
};
use file_rule::Fresh;
use layout_state::FileState;
use mds_file::{FileInput, MdsFile};
use open_state::next_seqid;
use std::alloc::Global;
use std::marker::Model;

/// A file: its name, where it stands, the sizes last seen, who has its layout, and what waits for its data servers.
#[derive(Drop)]
pub struct ServedFile {
    pub name: Data,
    pub file: MdsFile,
    /// The size last seen at each mirror that has shown one.
    pub sizes: Vec<(MirrorId, u64)>,
    /// How many periods were granted and ended.
    pub periods: u64,
    /// The client that has the layout, by its id.
    pub holder: Option<u64>,
    /// The seqid that the layout's stateid was last given with.
    pub seqid: u32,
    pub write: Option<WaitingWrite>,
    /// In the order in which they began.
    pub reads: WaitingReads,
}

impl Model for ServedFile {
    ghost use Rattle.mds_rule.specs.MdsStates.{ServedFile};

    ghost Value = { ServedFile };

    ghost view = { λ s. record { name = s.name; file = s.file; sizes = s.sizes.items; periods = s.periods; holder = s.holder; seqid = s.seqid; write = s.write; reads = s.reads } };
}

impl ServedFile {
    /// A new file of this name. Takes no memory.
    pub fn new(alloc: Global, name: Data, file: MdsFile) -> ServedFile
        ensures { result ≡ new_served name file }
    {
        ServedFile {
            name,
            file,
            sizes: Vec::new(alloc),
            periods: 0,
            holder: None,
            seqid: 0,
            write: None,
            reads: WaitingReads::new(alloc),
        }
    }

    /// Where it stands.
    pub fn state(&self) -> FileState
        ensures { result ≡ self.now.file.layout }
    {
        self.file.state()
    }

    /// The size last seen at its first live mirror, in bytes.
    pub fn size(&self) -> u64
        ensures { result ≡ size_served self.now }
    {
        size_of_first(self.file.state().live(), &self.sizes)
    }

    /// An input of the table of phases; whether a period ended. Takes memory.
    pub fn take(
        &mut self,
        file: FileId,
        input: FileInput<'_>,
        fresh: &mut Fresh,
        entries: &mut Vec<Entry>,
    ) -> Result<bool, NoMemory>
        requires { HasFresh fresh.old }
        ensures takes { TakesStep (phase file self.old.file (plain_input input.entry) fresh.old) self.old fresh.old entries.old.items result self.new fresh.new entries.new.items }
        ensures still { OnOk result (is_idle self.new.file.activity ≡ true → IsFileStill self.new) }
    {
        let before = entries.len();
        self.file.take(file, input, fresh, entries)?;
        Ok(self.hear(&entries[before..]))
    }

    /// What an input has left of the file is seen, with its entries; whether a period ended.
    fn hear(&mut self, told: &[Entry]) -> bool
        ensures file { self.new ≡ heard self.old told.now }
        ensures ended { result ≡ list_any is_period_end told.now }
    {
        let state = self.file.state();
        self.periods = self.periods.wrapping_add(count_periods(told) as u64);
        self.reads.restart_behind(told, state.live());
        self.follow(state);
        has_period_end(told)
    }

    /// Who holds it no more is forgotten, and where it is free the sizes of mirrors that are not live.
    fn follow(&mut self, state: FileState)
        ensures { self.new ≡ record self.old { sizes = sizes_in state state.phase self.old.sizes; holder = kept_holder (holder_of state.phase) self.old.holder } }
    {
        if state.holder().is_none() {
            self.holder = None;
        }
        if state.phase() == Phase::Free {
            keep_live(state.live(), &mut self.sizes);
        }
    }

    /// What the reply to a call of this server shows of a mirror's size is seen. Takes memory.
    pub fn see_size(
        &mut self,
        server: u32,
        call: &DsCall<'_>,
        reply: &DsReply<'_>,
    ) -> Result<(), NoMemory>
        ensures sizes { OnOk result (self.new ≡ sized self.old server (fileid_of (plain_ds_call call.now) (plain_ds_reply reply.now)) (attributes_shown (plain_ds_reply reply.now))) }
        ensures name { self.new.name ≡ self.old.name }
    {
        let Some(fileid) = fileid_of(call, reply) else {
            return Ok(());
        };
        let Some(shown) = attributes_shown(reply) else {
            return Ok(());
        };
        set_size(MirrorId { server, fileid }, shown.size, &mut self.sizes)
    }

    /// Its layout is given to this client: with seqid 1, or, where the client has it, again with the next one.
    pub fn hand_to(&mut self, client: u64, again: bool)
        ensures { self.new ≡ with_holder client again self.old }
    {
        self.holder = Some(client);
        self.seqid = if again { next_seqid(self.seqid) } else { 1 };
    }

    /// The call of this number is that of one of its READs.
    pub fn has_read_out(&self, xid: u32) -> bool
        ensures { result ≡ list_any (is_read_out xid) self.now.reads }
    {
        self.reads.has_out(xid)
    }

    /// The call of this number is one of its own WRITE.
    pub fn has_write_out(&self, xid: u32) -> bool
        ensures { result ≡ is_writer_out xid self.now.write }
    {
        match &self.write {
            Some(write) => write.writer.is_outstanding(xid),
            None => false,
        }
    }

    /// A READ begins, and the compound waits for it. Takes memory.
    pub fn begin_read(&mut self, compound: KeptRun, at: u64, count: u32) -> Result<(), NoMemory>
        ensures read { OnOk result (self.new ≡ with_read compound at count self.old) }
        ensures name { self.new.name ≡ self.old.name }
    {
        let live = self.file.state().live();
        self.reads.begin(compound, live, at, count)
    }

    /// An answer to the READ of this number. Takes memory.
    pub fn answer_read(
        &mut self,
        alloc: Global,
        xid: u32,
        reply: &DsReply<'_>,
        entries: &mut Vec<Entry>,
    ) -> Result<Option<EndedRead>, NoMemory>
        requires { HasFewBytes (plain_ds_reply reply.now) }
        ensures steps { StepsRead self.old.reads entries.old.items xid (λ r. read.after_reply r xid (plain_ds_reply reply.now)) result self.new.reads entries.new.items }
        ensures stays { self.new ≡ record self.old { reads = self.new.reads } }
        ensures few { IfOk result GivesFew }
    {
        self.reads.answer(alloc, xid, reply, entries)
    }

    /// A timeout of the READ of this number. Takes memory.
    pub fn time_out_read(
        &mut self,
        xid: u32,
        entries: &mut Vec<Entry>,
    ) -> Result<Option<EndedRead>, NoMemory>
        ensures steps { StepsRead self.old.reads entries.old.items xid (λ r. read.after_timeout r xid) result self.new.reads entries.new.items }
        ensures stays { self.new ≡ record self.old { reads = self.new.reads } }
        ensures few { IfOk result GivesFew }
    {
        self.reads.time_out(xid, entries)
    }

    /// The metadata server's own WRITE of 1 to 65,536 bytes begins, and the compound waits for it. Takes memory.
    pub fn begin_write(
        &mut self,
        alloc: Global,
        compound: KeptRun,
        at: u64,
        bytes: &[u8],
    ) -> Result<(), NoMemory>
        requires some { 1 ≤ length bytes.now }
        requires few { length bytes.now ≤ PIECE_SIZE }
        requires within { at + length bytes.now ≤ MAX_FILE }
        ensures write { OnOk result (self.new ≡ with_write compound at bytes.now self.old) }
        ensures name { self.new.name ≡ self.old.name }
    {
        let state = self.file.state();
        let write = WaitingWrite::start(alloc, compound, state.live(), state.cred(), at, bytes)?;
        self.write = Some(write);
        Ok(())
    }

    /// An answer to a call of its own WRITE. Takes memory.
    pub fn answer_write(
        &mut self,
        xid: u32,
        reply: &DsReply<'_>,
    ) -> Result<Option<EndedWrite>, NoMemory>
        ensures { StepsWrite self.old (λ w. after_own_reply w xid (plain_ds_reply reply.now)) result self.new }
    {
        let Some(write) = &mut self.write else {
            return Ok(None);
        };
        if !write.answer(xid, reply)? {
            return Ok(None);
        }
        Ok(self.end_write())
    }

    /// A timeout of a call of its own WRITE. Takes memory.
    pub fn time_out_write(&mut self, xid: u32) -> Result<Option<EndedWrite>, NoMemory>
        ensures { StepsWrite self.old (λ w. writer.after_timeout w xid) result self.new }
    {
        let Some(write) = &mut self.write else {
            return Ok(None);
        };
        if !write.time_out(xid)? {
            return Ok(None);
        }
        Ok(self.end_write())
    }

    /// Its own WRITE is over.
    fn end_write(&mut self) -> Option<EndedWrite>
        ensures { WriteTaken self.old result self.new self.old.write }
    {
        let write = self.write.take()?;
        let live = self.file.state().live();
        let causes = causes_of(&write.failures, live);
        let has_failed = has_failed_everywhere(&write.failures, live);
        Some(EndedWrite {
            compound: write.compound,
            at: write.at,
            bytes: write.bytes,
            causes,
            has_failed,
        })
    }
}
