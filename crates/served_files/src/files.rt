//! The files of a metadata server.

ghost use Rattle.std.specs.Prelude.{◌≡◌, ◌≤◌, ◌<◌, ◌+◌, ◌++◌, ◌∷◌, [], length, option_copied, None, OnOk, IfOk, IfSome};
ghost use Rattle.cluster_model.specs.declared.limits.TheConstants.{MAX_FILE, PIECE_SIZE};
ghost use Rattle.cluster_model.specs.DsCalls.{plain_ds_call, plain_ds_reply};
ghost use Rattle.ds_calls.specs.GivenReplies.{HasFewBytes};
ghost use Rattle.mds_rows.specs.Draws.{HasFresh};
ghost use Rattle.mds_file.specs.Inputs.{plain_input};
ghost use Rattle.mds_io.specs.Reads as read;
ghost use Rattle.mds_io.specs.OwnWrites.{after_own_reply};
ghost use Rattle.mirror_writer.specs.Writers as writer;
ghost use Rattle.mds_rule.specs.MdsStates.{served_in, named_among};
ghost use Rattle.mds_rule.specs.ServedFiles.{is_holder, held_from};
ghost use Rattle.mds_rule.specs.FileOps.{max_files, new_served, with_read, with_write};
ghost use Rattle.mds_rule.specs.LayoutOps.{with_holder};
ghost use Rattle.mds_rule.specs.Answers.{sized, fileid_of, attributes_shown};
ghost use Rattle.served_files.specs.Waiting.{GivesFew};
ghost use Rattle.served_files.specs.Quiet.{NextDue, NextRestless};
ghost use Rattle.served_files.specs.FileSteps.{at_place, changed_in, TakesIn, StepsReadIn, StepsWriteIn, SendsOwnIn, SendsReadIn};

use crate::file::ServedFile;
use crate::names::FileNames;
use crate::reading::EndedRead;
use crate::sending::SentByFile;
use crate::touched::{Touched, first_from, mark};
use crate::writing::EndedWrite;
use cluster_model::{DsCall, DsReply, Entry, FileId};
use compound_run::KeptRun;
use ff_xdr::{Data, NoMemory};
use file_rule::Fresh;
use mds_file::{FileInput, MdsFile};
use std::alloc::Global;
use std::marker::Model;

/// The most files of a metadata server.
pub const MAX_FILES: usize = 4_096;

/// The files, by their numbers from 1 and by their names. A call that changes a file marks it first, so that `next_due` finds the
/// files alone that may have a call to send, and `next_restless` those that a tick may change.
#[derive(Drop)]
pub struct Files {
    alloc: Global,
    names: FileNames,
    files: Vec<ServedFile>,
    touched: Touched,
}

impl Model for Files {
    ghost use Rattle.std.specs.Prelude.{List, map, ◌≡◌, ◌≤◌, length};
    ghost use Rattle.mds_rule.specs.MdsStates.{ServedFile};

    ghost Value = { List ServedFile };

    ghost view = { λ s. s.files.items };

    ghost use Rattle.served_files.specs.Quiet.{AreQuietBut, AreStillBut};

    ghost invariant = { λ s. (s.names ≡ map (λ f. f.name) s.files.items) × (length s.files.items ≤ 4096) × AreQuietBut s.touched.due.keys s.files.items × AreStillBut s.touched.restless.keys s.files.items };
}

impl Files {
    /// No files. Takes no memory.
    pub fn new(alloc: Global) -> Files
        ensures { result ≡ [] }
    {
        Files {
            alloc,
            names: FileNames::new(alloc),
            files: Vec::new(alloc),
            touched: Touched::new(alloc),
        }
    }

    /// How many there are.
    pub fn len(&self) -> u32
        ensures exact { result ≡ length self.now }
        ensures few { length self.now ≤ 4096 }
    {
        self.files.len() as u32
    }

    /// The file of this name.
    pub fn named(&self, name: &[u8]) -> Option<FileId>
        ensures { result ≡ named_among self.now name.now }
    {
        let place = self.names.index_of(name)?;
        Some(FileId(place as u32 + 1))
    }

    /// The file of this number.
    pub fn get(&self, file: FileId) -> Option<&ServedFile>
        ensures { option_copied result ≡ served_in self.now file }
    {
        if file.0 == 0 {
            return None;
        }
        self.files.get(file.0 as usize - 1)
    }

    /// The first file from this number on that may have a call to send: one that was touched since it was last settled. It costs the
    /// logarithm of how many such files there are.
    pub fn next_due(&self, from: u32) -> Option<FileId>
        ensures { NextDue self.now from result }
    {
        let first = (from as usize).saturating_sub(1);
        let place = first_from(first, &self.touched.due)?;
        // the place behind the last is due where memory was wanted for a new file
        if place >= self.files.len() {
            return None;
        }
        Some(FileId(place as u32 + 1))
    }

    /// The first file from this number on that a tick may change: one that has something under way, or was touched since it last took
    /// an input. It costs the logarithm of how many such files there are.
    pub fn next_restless(&self, from: u32) -> Option<FileId>
        ensures next { NextRestless self.now from result }
        ensures few { length self.now ≤ 4096 }
    {
        let first = (from as usize).saturating_sub(1);
        let place = first_from(first, &self.touched.restless)?;
        // the place behind the last is marked where memory was wanted for a new file
        if place >= self.files.len() {
            return None;
        }
        Some(FileId(place as u32 + 1))
    }

    /// What of a file could go out has gone out. Where nothing of it waits it is due no more, until it is touched again. It costs by
    /// the READs of the file, and the logarithm of how many files are due.
    pub fn settle(&mut self, file: FileId)
        ensures { self.new ≡ self.old }
    {
        let Some(place) = self.place(file) else {
            return;
        };
        if self.files[place].is_quiet() {
            self.touched.due.remove(&place);
        }
    }

    /// The files whose layout this client has, in order. It costs by the number of files. Takes memory.
    pub fn held_by(&self, client: u64) -> Result<Vec<FileId>, NoMemory>
        ensures { IfOk result (λ held. held.items ≡ held_from client 1 self.now) }
    {
        held_among(self.alloc, client, self.files.as_slice())
    }

    /// One more file, of a name that no other has. Takes memory.
    pub fn add(&mut self, name: &[u8], file: MdsFile) -> Result<(), NoMemory>
        requires absent { named_among self.old name.now ≡ None }
        requires few { length self.old < max_files }
        ensures { OnOk result (self.new ≡ self.old ++ new_served name.now file ∷ []) }
    {
        let own = Data::of(self.alloc, name)?;
        self.files.reserve(1)?;
        let place = self.files.len();
        mark(place, &mut self.touched)?;
        self.names.add(name)?;
        // there is room for it, so it does not fail
        self.files.push(ServedFile::new(self.alloc, own, file))?;
        Ok(())
    }

    /// The place of a file, if it is there.
    fn place(&self, file: FileId) -> Option<usize>
        ensures exact { served_in self.now file ≡ at_place self.now result }
        ensures within { IfSome result (λ place. (place < length self.now) × (place + 1 ≡ file.0)) }
    {
        if file.0 == 0 {
            return None;
        }
        let place = file.0 as usize - 1;
        if place >= self.files.len() {
            return None;
        }
        Some(place)
    }

    /// An input of the table of phases comes to a file; whether a period of it ended. Where the file has nothing under way behind it,
    /// a tick would change nothing of it. Takes memory.
    pub fn take(
        &mut self,
        file: FileId,
        input: FileInput<'_>,
        fresh: &mut Fresh,
        entries: &mut Vec<Entry>,
    ) -> Result<bool, NoMemory>
        requires { HasFresh fresh.old }
        ensures { TakesIn (plain_input input.entry) self.old file fresh.old entries.old.items result self.new fresh.new entries.new.items }
    {
        let Some(place) = self.place(file) else {
            return Ok(false);
        };
        mark(place, &mut self.touched)?;
        let has_ended = self.files[place].take(file, input, fresh, entries)?;
        if self.files[place].file.is_idle() {
            self.touched.restless.remove(&place);
        }
        Ok(has_ended)
    }

    /// What the reply to a call of this server shows of a mirror's size is seen. Takes memory.
    pub fn see_size(
        &mut self,
        file: FileId,
        server: u32,
        call: &DsCall<'_>,
        reply: &DsReply<'_>,
    ) -> Result<(), NoMemory>
        ensures { OnOk result (self.new ≡ changed_in self.old file (λ s. sized s server (fileid_of (plain_ds_call call.now) (plain_ds_reply reply.now)) (attributes_shown (plain_ds_reply reply.now)))) }
    {
        let Some(place) = self.place(file) else {
            return Ok(());
        };
        mark(place, &mut self.touched)?;
        self.files[place].see_size(server, call, reply)
    }

    /// A file's layout is given to this client: with seqid 1, or, where the client has it, again with the next one. Takes memory.
    pub fn hand_to(&mut self, file: FileId, client: u64, again: bool) -> Result<(), NoMemory>
        ensures { OnOk result (self.new ≡ changed_in self.old file (with_holder client again)) }
    {
        let Some(place) = self.place(file) else {
            return Ok(());
        };
        mark(place, &mut self.touched)?;
        self.files[place].hand_to(client, again);
        Ok(())
    }

    /// A READ of a file begins, and the compound waits for it. Takes memory.
    pub fn begin_read(
        &mut self,
        file: FileId,
        compound: KeptRun,
        at: u64,
        count: u32,
    ) -> Result<(), NoMemory>
        ensures { OnOk result (self.new ≡ changed_in self.old file (with_read compound at count)) }
    {
        let Some(place) = self.place(file) else {
            return Ok(());
        };
        mark(place, &mut self.touched)?;
        self.files[place].begin_read(compound, at, count)
    }

    /// An answer to the READ of this number. Takes memory.
    pub fn answer_read(
        &mut self,
        file: FileId,
        xid: u32,
        reply: &DsReply<'_>,
        entries: &mut Vec<Entry>,
    ) -> Result<Option<EndedRead>, NoMemory>
        requires { HasFewBytes (plain_ds_reply reply.now) }
        ensures steps { StepsReadIn self.old file entries.old.items xid (λ r. read.after_reply r xid (plain_ds_reply reply.now)) result self.new entries.new.items }
        ensures few { IfOk result GivesFew }
    {
        let alloc = self.alloc;
        let Some(place) = self.place(file) else {
            return Ok(None);
        };
        mark(place, &mut self.touched)?;
        self.files[place].answer_read(alloc, xid, reply, entries)
    }

    /// A timeout of the READ of this number. Takes memory.
    pub fn time_out_read(
        &mut self,
        file: FileId,
        xid: u32,
        entries: &mut Vec<Entry>,
    ) -> Result<Option<EndedRead>, NoMemory>
        ensures steps { StepsReadIn self.old file entries.old.items xid (λ r. read.after_timeout r xid) result self.new entries.new.items }
        ensures few { IfOk result GivesFew }
    {
        let Some(place) = self.place(file) else {
            return Ok(None);
        };
        mark(place, &mut self.touched)?;
        self.files[place].time_out_read(xid, entries)
    }

    /// The metadata server's own WRITE of 1 to 65,536 bytes to a file begins, and the compound waits for it. Takes memory.
    pub fn begin_write(
        &mut self,
        file: FileId,
        compound: KeptRun,
        at: u64,
        bytes: &[u8],
    ) -> Result<(), NoMemory>
        requires some { 1 ≤ length bytes.now }
        requires few { length bytes.now ≤ PIECE_SIZE }
        requires within { at + length bytes.now ≤ MAX_FILE }
        ensures { OnOk result (self.new ≡ changed_in self.old file (with_write compound at bytes.now)) }
    {
        let alloc = self.alloc;
        let Some(place) = self.place(file) else {
            return Ok(());
        };
        mark(place, &mut self.touched)?;
        self.files[place].begin_write(alloc, compound, at, bytes)
    }

    /// An answer to a call of a file's own WRITE. Takes memory.
    pub fn answer_write(
        &mut self,
        file: FileId,
        xid: u32,
        reply: &DsReply<'_>,
    ) -> Result<Option<EndedWrite>, NoMemory>
        ensures { StepsWriteIn self.old file (λ w. after_own_reply w xid (plain_ds_reply reply.now)) result self.new }
    {
        let Some(place) = self.place(file) else {
            return Ok(None);
        };
        mark(place, &mut self.touched)?;
        self.files[place].answer_write(xid, reply)
    }

    /// A timeout of a call of a file's own WRITE. Takes memory.
    pub fn time_out_write(&mut self, file: FileId, xid: u32) -> Result<Option<EndedWrite>, NoMemory>
        ensures { StepsWriteIn self.old file (λ w. writer.after_timeout w xid) result self.new }
    {
        let Some(place) = self.place(file) else {
            return Ok(None);
        };
        mark(place, &mut self.touched)?;
        self.files[place].time_out_write(xid)
    }

    /// A file's next own call goes out under this number; `None` where none waits. Takes memory.
    pub fn send_own(&mut self, file: FileId, xid: u32) -> Result<Option<SentByFile>, NoMemory>
        ensures { SendsOwnIn self.old file xid result self.new }
    {
        let alloc = self.alloc;
        let Some(place) = self.place(file) else {
            return Ok(None);
        };
        mark(place, &mut self.touched)?;
        self.files[place].send_own(alloc, file, xid)
    }

    /// The READ at this place of a file's goes out under this number; `None` where it does not wait. Takes memory.
    pub fn send_read(
        &mut self,
        file: FileId,
        n: usize,
        xid: u32,
    ) -> Result<Option<SentByFile>, NoMemory>
        ensures { SendsReadIn self.old file n xid result self.new }
    {
        let alloc = self.alloc;
        let Some(place) = self.place(file) else {
            return Ok(None);
        };
        mark(place, &mut self.touched)?;
        self.files[place].send_read(alloc, file, n, xid)
    }
}

/// The files whose layout this client has, of these, whose numbers begin at 1. Takes memory.
fn held_among(alloc: Global, client: u64, files: &[ServedFile]) -> Result<Vec<FileId>, NoMemory>
    requires { length files.now ≤ 4096 }
    ensures { IfOk result (λ held. held.items ≡ held_from client 1 files.now) }
{
    let mut held = Vec::new(alloc);
    for (place, served) in files.iter().enumerate() {
        if is_held_by(client, served) {
            held.push(FileId(place as u32 + 1))?;
        }
    }
    Ok(held)
}

/// This client has the file's layout.
fn is_held_by(client: u64, served: &ServedFile) -> bool
    ensures { result ≡ is_holder client served.now.holder }
{
    match served.holder {
        Some(holder) => holder == client,
        None => false,
    }
}
