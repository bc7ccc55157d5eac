//! The calls of a file that go out.

ghost use Rattle.std.specs.Prelude.{◌≡◌, ◌==◌, ℕ, position};
ghost use Rattle.std.specs.Bool.{OnTrue, OnFalse};
ghost use Rattle.std.specs.Option.{option_map};
ghost use Rattle.cluster_model.specs.declared.ids.FileId.{FileId};
ghost use Rattle.file_rule.specs.FilePhases.{call_out};
ghost use Rattle.mds_io.specs.Reads as read;
ghost use Rattle.mirror_writer.specs.Writers as writer;
ghost use Rattle.mds_rule.specs.Goes.{place_or_last, place_of};
ghost use Rattle.served_files.specs.Sending.{OwnWaits, SendsOwn, ReadWaits, SendsFileRead, SentOfWrite, SentOfFile, SentOfRead};
ghost use Rattle.served_files.specs.Waiting.{OutUnder};
ghost use Rattle.served_files.specs.Quiet.{IsFileQuiet};

use crate::file::ServedFile;
use crate::reading::WaitingRead;
use crate::writing::WaitingWrite;
use awaited_calls::KeptCall;
use cluster_model::{Cred, FileId, Mirrors};
use ff_xdr::NoMemory;
use mds_activity::first_calls;
use mds_file::MdsFile;
use mds_io::MdsWrite;
use mds_rule::Waiter;
use std::alloc::Global;

/// A call to a data server that went out: by which uid, and who waits for its answer.
#[derive(Drop)]
pub struct SentByFile {
    pub server: u32,
    pub uid: Cred,
    pub caller: Waiter,
    pub call: KeptCall,
}

impl ServedFile {
    /// The server to which its next own call waits: one that the file has under way, or one of its own WRITE.
    pub fn waiting_server(&self) -> Option<u32>
        ensures { (file : FileId) (xid : ℕ) → OwnWaits self.now file xid result }
    {
        if let Some(write) = &self.write {
            return server_of_write(&write.writer);
        }
        server_of_file(&self.file)
    }

    /// That call goes out under this number; `None` where none waits. Takes memory.
    pub fn send_own(
        &mut self,
        alloc: Global,
        file: FileId,
        xid: u32,
    ) -> Result<Option<SentByFile>, NoMemory>
        ensures { SendsOwn file self.old xid result self.new }
    {
        if let Some(write) = &mut self.write {
            return send_of_write(alloc, file, xid, write);
        }
        send_of_file(alloc, file, xid, &mut self.file)
    }

    /// The server to which the READ at this place waits.
    pub fn waiting_read(&self, n: usize) -> Option<u32>
        ensures { (xid : ℕ) → ReadWaits self.now n xid result }
    {
        let waiting = self.reads.get(n)?;
        let id = waiting.read.waiting_mirror()?;
        Some(id.server)
    }

    /// That READ goes out under this number, by uid 0; `None` where it does not wait. Takes memory.
    pub fn send_read(
        &mut self,
        alloc: Global,
        file: FileId,
        n: usize,
        xid: u32,
    ) -> Result<Option<SentByFile>, NoMemory>
        ensures { SendsFileRead file self.old n xid result self.new }
    {
        self.reads.send(alloc, file, n, xid)
    }

    /// Neither an own call of it waits to go out nor one of its READs. It costs by the READs.
    pub fn is_quiet(&self) -> bool
        ensures quiet { OnTrue result (IsFileQuiet self.now) }
        ensures waits { OnFalse result (¬ IsFileQuiet self.now) }
    {
        if self.waiting_server().is_some() {
            return false;
        }
        for n in 0..self.reads.len() {
            if self.waiting_read(n).is_some() {
                return false;
            }
        }
        true
    }

    /// The place in the live list, from 0, of the mirror on this server; 4 where there is none.
    pub fn place_of(&self, server: u32) -> usize
        ensures { result ≡ place_of self.now server }
    {
        place_among(self.file.state().live(), server)
    }
}

/// The server to which the next call of an own WRITE waits.
fn server_of_write(write: &MdsWrite) -> Option<u32>
    ensures { (xid : ℕ) → result ≡ option_map (λ c. c.id.server) (writer.next_sent write.now xid) }
{
    let id = write.waiting_mirror()?;
    Some(id.server)
}

/// The server to which the next call waits that a file has under way.
fn server_of_file(file: &MdsFile) -> Option<u32>
    ensures { (xid : ℕ) → result ≡ option_map (λ c. c.server) (call_out file.now xid) }
{
    first_calls();
    file.waiting_servers().first().copied()
}

/// The next call of an own WRITE goes out under this number; `None` where none waits. Takes memory.
fn send_of_write(
    alloc: Global,
    file: FileId,
    xid: u32,
    write: &mut WaitingWrite,
) -> Result<Option<SentByFile>, NoMemory>
    ensures { SentOfWrite file write.old (writer.next_sent write.old.writer xid) result write.new }
{
    let uid = write.writer.cred();
    let Some((id, call)) = write.writer.next_call(xid) else {
        return Ok(None);
    };
    let call = KeptCall::of(alloc, &call)?;
    Ok(Some(SentByFile {
        server: id.server,
        uid,
        caller: Waiter::ForWrite(file),
        call,
    }))
}

/// The next call that a file has under way goes out under this number; `None` where none waits. Takes memory.
fn send_of_file(
    alloc: Global,
    file: FileId,
    xid: u32,
    served: &mut MdsFile,
) -> Result<Option<SentByFile>, NoMemory>
    ensures { SentOfFile file served.old (call_out served.old xid) result served.new }
{
    let Some(next) = served.send_next(xid) else {
        return Ok(None);
    };
    let call = KeptCall::of(alloc, &served.lend(next))?;
    Ok(Some(SentByFile {
        server: next.server,
        uid: Cred(next.uid),
        caller: Waiter::ForFile(file),
        call,
    }))
}

/// The call of a READ goes out under this number, by uid 0; `None` where it does not wait. Takes memory.
pub fn send_of_read(
    alloc: Global,
    file: FileId,
    xid: u32,
    waiting: &mut WaitingRead,
) -> Result<Option<SentByFile>, NoMemory>
    ensures sends { SentOfRead file waiting.old (read.next_sent waiting.old.read xid) result waiting.new }
    ensures out { OutUnder xid waiting.old.read waiting.new.read }
{
    let Some((id, call)) = waiting.read.next_call(xid) else {
        return Ok(None);
    };
    let call = KeptCall::of(alloc, &call)?;
    Ok(Some(SentByFile {
        server: id.server,
        uid: Cred(0),
        caller: Waiter::ForRead(file),
        call,
    }))
}

/// The place of the mirror on this server; 4 where there is none.
fn place_among(live: Mirrors, server: u32) -> usize
    ensures { result ≡ place_or_last (position (λ m. m.id.server == server) live) }
{
    for place in 0..live.len() {
        let Some(mirror) = live.get(place) else {
            return 4;
        };
        if mirror.id.server == server {
            return place;
        }
    }
    4
}
