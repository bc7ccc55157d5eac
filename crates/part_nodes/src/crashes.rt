//! Crashes of a store at each call of its disks.

ghost use Rattle.std.specs.Prelude.{◌<◌};

use cluster_model::{NodeId, Outbox};
use ds_store::{OpenFault, Store, StoreFault};
use part_log::Disks;
use row_words::{Answer, RowFault, Words};
use std::alloc::Global;
use store_disk::MemoryDisk;

/// The number of the data server.
const NUMBER: u32 = 1;

/// More calls of the disk than a trial may make.
const MOST_CALLS: u64 = 100_000;

/// Records of the metadata server, with commas between them.
fn read_records(words: &mut Words<'_>) -> Vec<Vec<u8>> {
    let mut records = Vec::new(words.alloc());
    for text in words.word().split(',') {
        let mut item = Words::of(words.alloc(), text);
        if records.push(item.bytes()).is_err() {
            words.note(RowFault::NoMemory);
        }
        words.behind(item);
    }
    records
}

/// Hands one record to a store: whether it was answered.
fn is_answered(
    alloc: Global,
    store: &mut Store<MemoryDisk>,
    message: &[u8],
) -> Result<bool, RowFault> {
    let mut out = Outbox::new(alloc);
    match store.on_record(NodeId::Mds, message, &mut out) {
        Ok(()) => Ok(true),
        Err(StoreFault::Disk) => Ok(false),
        Err(StoreFault::Broken) => Ok(false),
        Err(StoreFault::NoMemory) => Err(RowFault::NoMemory),
    }
}

/// What two disks hold.
#[derive(Drop)]
struct Held {
    disk: Vec<u8>,
    spare: Vec<u8>,
}

impl Held {
    /// What these hold.
    fn of(alloc: Global, disks: &Disks) -> Result<Held, RowFault> {
        let disk = disks.disk_bytes().to_vec(alloc)?;
        let spare = disks.spare_bytes().to_vec(alloc)?;
        Ok(Held { disk, spare })
    }

    /// New disks that hold the same.
    fn disks(&self, alloc: Global) -> Result<Disks, RowFault> {
        let disk = self.disk.to_vec(alloc)?;
        let spare = self.spare.to_vec(alloc)?;
        Ok(Disks::new(alloc, disk, spare)?)
    }

    /// It begins with what other disks hold.
    fn begins_with(&self, other: &Held) -> bool {
        self.disk.starts_with(other.disk.as_slice())
            && self.spare.starts_with(other.spare.as_slice())
    }
}

/// The disks of a store.
fn closed(store: Store<MemoryDisk>) -> Disks {
    let (disk, spare) = store.close();
    Disks::of(disk, spare)
}

/// The disks as they are behind so many of the records, and how many of them were answered; `None` where they do not open.
fn behind(
    alloc: Global,
    disks: Disks,
    records: &[Vec<u8>],
) -> Result<(Disks, Option<usize>), RowFault> {
    let (disk, spare) = disks.into_pair();
    let mut store = match Store::open(alloc, NUMBER, disk, spare) {
        Ok(store) => store,
        Err(OpenFault::Disk(disk, spare)) => return Ok((Disks::of(disk, spare), None)),
        Err(_) => return Err(RowFault::Outside),
    };
    for (answered, message) in records.iter().enumerate() {
        if !is_answered(alloc, &mut store, message)? {
            return Ok((closed(store), Some(answered)));
        }
    }
    Ok((closed(store), Some(records.len())))
}

/// What disks of these bytes hold behind their records, each with no fault.
fn log_behind(alloc: Global, first: &Held, records: &[Vec<u8>]) -> Result<Held, RowFault> {
    let (disks, _) = behind(alloc, first.disks(alloc)?, records)?;
    Held::of(alloc, &disks)
}

/// What disks hold once they were opened.
fn opened(alloc: Global, held: &Held) -> Result<Held, RowFault> {
    log_behind(alloc, held, &[])
}

/// What disks hold that were opened behind a crash: as if they had not been opened before the crash; or as if none, the
/// first, the first two and so on of the records had been answered before it.
fn logs(alloc: Global, first: &Held, records: &[Vec<u8>]) -> Result<Vec<Held>, RowFault> {
    let mut logs = Vec::new(alloc);
    logs.push(opened(alloc, first)?)?;
    for count in 0..=records.len() {
        let behind = log_behind(alloc, first, records.get(..count).unwrap_or(records))?;
        logs.push(opened(alloc, &behind)?)?;
    }
    Ok(logs)
}

/// What a crash left is the log of the records that were answered, or of one more. A log ends with its closed gate; behind
/// that a crash may leave bytes, which nobody reads.
fn is_kept(left: &Held, answered: Option<usize>, logs: &[Held]) -> bool {
    let before = answered.map_or(0, |count| count.saturating_add(1));
    logs.iter()
        .skip(before)
        .take(2)
        .any(|log| left.begins_with(log))
}

/// What disks of these bytes came to, of which each call behind so many of its own fails: what a crash by the choice left,
/// opened again, and how many of the records were answered.
fn stopped(
    alloc: Global,
    calls: u64,
    choice: u32,
    first: &Held,
    records: &[Vec<u8>],
) -> Result<(Held, Option<usize>), RowFault>
    requires { choice < 4 }
{
    let mut disks = first.disks(alloc)?;
    disks.stop_after(calls);
    let (disks, answered) = behind(alloc, disks, records)?;
    let left = Held::of(alloc, &disks.crash(choice)?)?;
    Ok((opened(alloc, &left)?, answered))
}

/// How often what is left is not the log of the records that were answered, or of one more, of disks that stop behind each
/// number of calls until all are answered.
fn lost(alloc: Global, choice: u32, first: &Held, records: &[Vec<u8>]) -> Result<u64, RowFault>
    requires { choice < 4 }
{
    let logs = logs(alloc, first, records)?;
    let mut lost = 0_u64;
    for calls in 0..MOST_CALLS {
        let (left, answered) = stopped(alloc, calls, choice, first, records)?;
        if !is_kept(&left, answered, &logs) {
            lost = lost.saturating_add(1);
        }
        if answered == Some(records.len()) {
            return Ok(lost);
        }
    }
    Err(RowFault::Outside)
}

/// `crashes CHOICE DISK SPARE RECORDS`: disks of these bytes, of which none lie behind a closed gate, are opened and handed the records, and
/// stop behind 0 calls of their own, 1 call and so on, until all are answered; each time they crash by the choice, and what is left is
/// opened again. The answer is `Kept`, or how often it was not opened as the log of the records that were answered, or of one more.
pub fn put_crashes(words: &mut Words<'_>, answer: &mut Answer) {
    let choice = words.number32();
    let first = Held {
        disk: words.bytes(),
        spare: words.bytes(),
    };
    let records = read_records(words);
    if choice > 3 {
        return answer.refuse();
    }
    if !words.end() {
        return;
    }
    match lost(answer.alloc(), choice, &first, &records) {
        Err(fault) => answer.note(fault),
        Ok(0) => answer.word("Kept"),
        Ok(lost) => answer.number(lost),
    }
}
