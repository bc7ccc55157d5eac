//! The READs of a file whose compounds wait for them, which are found by the numbers of their calls.

ghost use Rattle.std.specs.Prelude.{◌≡◌, ◌<◌, ◌++◌, ◌∷◌, [], length, slice_get, slice_index_or, remove, position, option_copied, OnOk, IfOk, IfSome};
ghost use Rattle.std.specs.List.{list_any};
ghost use Rattle.cluster_model.specs.DsCalls.{plain_ds_reply};
ghost use Rattle.ds_calls.specs.GivenReplies.{HasFewBytes};
ghost use Rattle.mds_io.specs.Reads.{new_read, after_reply, after_timeout};
ghost use Rattle.mds_rule.specs.ServedFiles.{reads_behind};
ghost use Rattle.mds_rule.specs.Answers.{is_read_out};
ghost use Rattle.served_files.specs.Waiting.{EndsFew, StepsRead, EndedAt, GivesFew};
ghost use Rattle.served_files.specs.Sending.{SendsAmong};

use crate::reading::{EndedRead, WaitingRead, restart, walk_out};
use crate::sending::{SentByFile, send_of_read};
use crate::tickets::Tickets;
use cluster_model::{DsReply, Entry, FileId, Mirrors};
use compound_run::KeptRun;
use ff_xdr::NoMemory;
use file_notes::has_swap;
use mds_io::{MdsRead, ReadEnd};
use std::alloc::Global;
use std::marker::Model;

/// The READs of a file that wait, in the order in which they began. One that is out is found by the number of its call, in the logarithm
/// of how many there are; once a number is out twice they are walked, until none is left.
#[derive(Drop)]
pub struct WaitingReads {
    reads: Vec<WaitingRead>,
    tickets: Tickets,
}

impl Model for WaitingReads {
    ghost use Rattle.std.specs.Prelude.{List};
    ghost use Rattle.mds_rule.specs.MdsStates.{WaitingRead};
    ghost use Rattle.served_files.specs.Tickets.{AreTicketsOf};

    ghost Value = { List WaitingRead };

    ghost view = { λ w. w.reads.items };

    ghost invariant = { λ w. AreTicketsOf w.reads.items w.tickets };
}

impl WaitingReads {
    /// None waits. Takes no memory.
    pub(crate) fn new(alloc: Global) -> WaitingReads
        ensures { result ≡ [] }
    {
        WaitingReads {
            reads: Vec::new(alloc),
            tickets: Tickets::new(alloc),
        }
    }

    /// How many there are.
    pub fn len(&self) -> usize
        ensures { result ≡ length self.now }
    {
        self.reads.len()
    }

    /// The one at this place.
    pub(crate) fn get(&self, n: usize) -> Option<&WaitingRead>
        ensures { option_copied result ≡ slice_get self.now n }
    {
        self.reads.get(n)
    }

    /// The place of the READ whose call has this number.
    fn place_out(&self, xid: u32) -> Option<usize>
        ensures place { result ≡ position (is_read_out xid) self.now }
        ensures within { IfSome result (λ place. place < length self.now) }
    {
        if !self.tickets.is_whole() {
            return walk_out(xid, &self.reads);
        }
        let place = self.tickets.find(xid)?;
        if !self.reads[place].read.is_outstanding(xid) {
            return None;
        }
        Some(place)
    }

    /// The call of this number is that of one of them.
    pub(crate) fn has_out(&self, xid: u32) -> bool
        ensures { result ≡ list_any (is_read_out xid) self.now }
    {
        self.place_out(xid).is_some()
    }

    /// A READ at these mirrors begins, and the compound waits for it. Takes memory.
    pub(crate) fn begin(
        &mut self,
        compound: KeptRun,
        live: Mirrors,
        at: u64,
        count: u32,
    ) -> Result<(), NoMemory>
        ensures { OnOk result (self.new ≡ self.old ++ (record { compound = compound; read = new_read live at count }) ∷ []) }
    {
        let read = MdsRead::start(live, at, count);
        self.reads.reserve(1)?;
        self.tickets.push()?;
        // there is room for it, so it does not fail
        self.reads.push(WaitingRead { compound, read })?;
        Ok(())
    }

    /// All begin again with these mirrors where a mirror came into the live list.
    pub(crate) fn restart_behind(&mut self, told: &[Entry], live: Mirrors)
        ensures { self.new ≡ reads_behind told.now live self.old }
    {
        if !has_swap(told) {
            return;
        }
        restart(live, &mut self.reads);
        self.tickets.forget_all();
    }

    /// The answer to the READ of this number. The compound whose READ has ended goes on. Takes memory.
    pub(crate) fn answer(
        &mut self,
        alloc: Global,
        xid: u32,
        reply: &DsReply<'_>,
        entries: &mut Vec<Entry>,
    ) -> Result<Option<EndedRead>, NoMemory>
        requires { HasFewBytes (plain_ds_reply reply.now) }
        ensures steps { StepsRead self.old entries.old.items xid (λ r. after_reply r xid (plain_ds_reply reply.now)) result self.new entries.new.items }
        ensures few { IfOk result GivesFew }
    {
        let Some(place) = self.place_out(xid) else {
            return Ok(None);
        };
        let end = self.reads[place].answer(alloc, xid, reply, entries)?;
        let ended = self.end_at(place, end);
        self.forget(xid);
        Ok(ended)
    }

    /// A timeout of the READ of this number. Takes memory.
    pub(crate) fn time_out(
        &mut self,
        xid: u32,
        entries: &mut Vec<Entry>,
    ) -> Result<Option<EndedRead>, NoMemory>
        ensures steps { StepsRead self.old entries.old.items xid (λ r. after_timeout r xid) result self.new entries.new.items }
        ensures few { IfOk result GivesFew }
    {
        let Some(place) = self.place_out(xid) else {
            return Ok(None);
        };
        let end = self.reads[place].time_out(xid, entries)?;
        let ended = self.end_at(place, end);
        self.forget(xid);
        Ok(ended)
    }

    /// The READ at this place has ended so, if it has.
    fn end_at(&mut self, place: usize, end: Option<ReadEnd>) -> Option<EndedRead>
        requires { place < length self.old }
        ensures ends { EndedAt self.old place end result self.new }
        ensures few { EndsFew end → GivesFew result }
    {
        let end = end?;
        let waiting = self.take(place);
        Some(EndedRead {
            compound: waiting.compound,
            end,
        })
    }

    /// The one at this place, which waits no more.
    fn take(&mut self, place: usize) -> WaitingRead
        requires { place < length self.old }
        ensures value { result ≡ slice_index_or self.old place result }
        ensures items { self.new ≡ remove self.old place }
    {
        let waiting = self.reads.remove(place);
        self.tickets.remove(place);
        if self.reads.is_empty() {
            self.tickets.clear();
        }
        waiting
    }

    /// Where no call of this number is out any more, it takes no room.
    fn forget(&mut self, xid: u32)
        ensures { self.new ≡ self.old }
    {
        if !self.has_out(xid) {
            self.tickets.forget(xid);
        }
    }

    /// The READ at this place goes out under this number, by uid 0; `None` where it does not wait. Takes memory.
    pub(crate) fn send(
        &mut self,
        alloc: Global,
        file: FileId,
        n: usize,
        xid: u32,
    ) -> Result<Option<SentByFile>, NoMemory>
        ensures { SendsAmong file self.old n xid result self.new }
    {
        let Some(waiting) = self.reads.get(n) else {
            return Ok(None);
        };
        if waiting.read.waiting_mirror().is_none() {
            return Ok(None);
        }
        self.tickets.enter(n, xid)?;
        send_of_read(alloc, file, xid, &mut self.reads[n])
    }
}
