//! A READ whose compound waits for it.

ghost use Rattle.std.specs.Prelude.{◌≡◌, ◌<◌, ◌≤◌, ◌++◌, length, map, drop, position, OnOk, IfOk, IfSome};
ghost use Rattle.cluster_model.specs.DsCalls.{plain_ds_reply};
ghost use Rattle.ds_calls.specs.GivenReplies.{HasFewBytes};
ghost use Rattle.mds_io.specs.Reads.{after_reply, after_timeout};
ghost use Rattle.mds_rule.specs.ServedFiles.{begins_again};
ghost use Rattle.mds_rule.specs.Answers.{is_read_out, failed_entry};
ghost use Rattle.served_files.specs.Waiting.{StepsOne, EndsFew, OutAsBefore};

use cluster_model::{DsReply, Entry, Mirrors};
use compound_run::KeptRun;
use ff_xdr::NoMemory;
use mds_io::{MdsRead, ReadEnd};
use std::alloc::Global;
use std::marker::Model;

/// A READ, and the compound that waits for it (RFC 8881, section 18.22).
#[derive(Drop)]
pub struct WaitingRead {
    pub compound: KeptRun,
    pub read: MdsRead,
}

impl Model for WaitingRead {
    ghost use Rattle.mds_rule.specs.MdsStates.{WaitingRead};

    ghost Value = { WaitingRead };

    ghost view = { λ r. record { compound = r.compound; read = r.read } };
}

impl WaitingRead {
    /// The answer to its call of this number; what its READ ended with, if it has. Its failures are entered. Takes memory.
    pub fn answer(
        &mut self,
        alloc: Global,
        xid: u32,
        reply: &DsReply<'_>,
        entries: &mut Vec<Entry>,
    ) -> Result<Option<ReadEnd>, NoMemory>
        requires { HasFewBytes (plain_ds_reply reply.now) }
        ensures steps { StepsOne (after_reply self.old.read xid (plain_ds_reply reply.now)) self.old entries.old.items result self.new entries.new.items }
        ensures few { IfOk result EndsFew }
        ensures out { OutAsBefore self.old.read self.new.read }
    {
        let before = self.read.failures().len();
        let end = self.read.on_reply(alloc, xid, reply)?;
        note_failures(&self.read, before, entries)?;
        Ok(end)
    }

    /// A timeout of its call of this number; what its READ ended with, if it has. Its failures are entered. Takes memory.
    pub fn time_out(
        &mut self,
        xid: u32,
        entries: &mut Vec<Entry>,
    ) -> Result<Option<ReadEnd>, NoMemory>
        ensures steps { StepsOne (after_timeout self.old.read xid) self.old entries.old.items result self.new entries.new.items }
        ensures few { IfOk result EndsFew }
        ensures out { OutAsBefore self.old.read self.new.read }
    {
        let before = self.read.failures().len();
        let end = self.read.on_timeout(xid);
        note_failures(&self.read, before, entries)?;
        Ok(end)
    }
}

/// A READ that has ended, and the compound that goes on.
#[derive(Drop)]
pub struct EndedRead {
    pub compound: KeptRun,
    pub end: ReadEnd,
}

/// The READs begin again with these mirrors.
pub fn restart(live: Mirrors, reads: &mut [WaitingRead])
    ensures { reads.new ≡ map (begins_again live) reads.old }
{
    for waiting in reads {
        waiting.read.restart(live);
    }
}

/// The place of the READ whose call has this number, by a walk.
pub fn walk_out(xid: u32, reads: &[WaitingRead]) -> Option<usize>
    ensures place { result ≡ position (is_read_out xid) reads.now }
    ensures within { IfSome result (λ place. place < length reads.now) }
{
    for (place, waiting) in reads.iter().enumerate() {
        if waiting.read.is_outstanding(xid) {
            return Some(place);
        }
    }
    None
}

/// The failures of a READ behind the first so many are entered.
fn note_failures(read: &MdsRead, before: usize, entries: &mut Vec<Entry>) -> Result<(), NoMemory>
    requires { before ≤ length read.now.failures }
    ensures { OnOk result (entries.new.items ≡ entries.old.items ++ map failed_entry (drop before read.now.failures)) }
{
    for failure in &read.failures()[before..] {
        entries.push(Entry::Failed {
            mirror: failure.id,
            xid: failure.xid,
        })?;
    }
    Ok(())
}
