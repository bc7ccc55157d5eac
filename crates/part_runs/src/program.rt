//! A run of the program over memory.

use ff_run::run;
use ff_xdr::NoMemory;
use node_link::{Arrival, MemoryClock, MemoryLink};
use rpc_record::{MemorySink, MemorySource};
use std::alloc::Global;
use store_disk::MemoryDisk;

/// The calls that fail, by their numbers from 1, and whether what comes over the link is there at once.
#[derive(Drop)]
pub struct Failing {
    pub source: Vec<u64>,
    pub sink: Vec<u64>,
    pub notes: Vec<u64>,
    pub disk: Vec<u64>,
    pub spare: Vec<u64>,
    pub link: Vec<u64>,
    pub is_at_once: bool,
}

impl Failing {
    /// None; takes no memory.
    pub fn none(alloc: Global) -> Failing {
        Failing {
            source: Vec::new(alloc),
            sink: Vec::new(alloc),
            notes: Vec::new(alloc),
            disk: Vec::new(alloc),
            spare: Vec::new(alloc),
            link: Vec::new(alloc),
            is_at_once: false,
        }
    }
}

/// What a run of the program is over: its words, the bytes of its source and of its disk, beside an empty spare, what comes
/// over its link, the moments that its clock gives, and the calls that fail.
#[derive(Drop)]
pub struct Over {
    pub said: Vec<String>,
    pub failing: Failing,
    pub log: Vec<u8>,
    pub moments: Vec<u64>,
    pub arrivals: Vec<Arrival>,
    pub text: Vec<u8>,
}

impl Over {
    /// A run with these words over this source, and nothing else.
    pub fn source(alloc: Global, said: Vec<String>, text: Vec<u8>) -> Over {
        Over {
            said,
            failing: Failing::none(alloc),
            log: Vec::new(alloc),
            moments: Vec::new(alloc),
            arrivals: Vec::new(alloc),
            text,
        }
    }
}

/// What a run came to.
#[derive(Drop)]
pub struct Ended {
    pub status: u8,
    pub sink: MemorySink,
    pub notes: MemorySink,
    pub disk: MemoryDisk,
    pub spare: MemoryDisk,
    pub link: MemoryLink,
}

/// The link over which these come: each is waited for, or all records are there at once.
fn link_over(
    alloc: Global,
    arrivals: Vec<Arrival>,
    failing: Vec<u64>,
    is_at_once: bool,
) -> MemoryLink {
    let link = MemoryLink::new(alloc, arrivals, failing);
    if is_at_once {
        return link.at_once();
    }
    link
}

/// Runs the program.
pub fn ran(alloc: Global, over: Over) -> Result<Ended, NoMemory> {
    let Over {
        said,
        failing,
        log,
        moments,
        arrivals,
        text,
    } = over;
    let mut disk = MemoryDisk::new(alloc, log, failing.disk)?;
    let mut spare = MemoryDisk::new(alloc, Vec::new(alloc), failing.spare)?;
    let mut source = MemorySource::new(text, failing.source);
    let mut sink = MemorySink::new(alloc, failing.sink);
    let mut notes = MemorySink::new(alloc, failing.notes);
    let mut link = link_over(alloc, arrivals, failing.link, failing.is_at_once);
    let mut clock = MemoryClock::new(moments);
    let status = run(
        alloc,
        &said,
        &mut source,
        &mut sink,
        &mut notes,
        &mut disk,
        &mut spare,
        &mut link,
        &mut clock,
    );
    Ok(Ended {
        status,
        sink,
        notes,
        disk,
        spare,
        link,
    })
}
