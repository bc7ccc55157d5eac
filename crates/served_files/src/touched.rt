//! The places of files that were touched. Each call costs the logarithm of how many there are.

ghost use Rattle.std.specs.Prelude.{◌≡◌, ◌≢◌, ℕ, [], true, false, OnOk};
ghost use Rattle.served_files.specs.Quiet.{is_marked, FirstMarked};

use ff_xdr::NoMemory;
use std::alloc::Global;
use std::collections::BTreeSet;

/// The places of the files that may have a call to send, and of those that a tick may change.
#[derive(Drop)]
pub struct Touched {
    pub due: BTreeSet<usize>,
    pub restless: BTreeSet<usize>,
}

impl Touched {
    /// None. Takes no memory.
    pub fn new(alloc: Global) -> Touched
        ensures due { result.due.keys ≡ [] }
        ensures restless { result.restless.keys ≡ [] }
    {
        Touched {
            due: BTreeSet::new(alloc),
            restless: BTreeSet::new(alloc),
        }
    }
}

/// This place is due and restless from now on. Where memory is wanted, those that were so still are.
pub fn mark(place: usize, touched: &mut Touched) -> Result<(), NoMemory>
    ensures due { OnOk result (is_marked touched.new.due.keys place ≡ true) }
    ensures stay_due { (p : ℕ) → is_marked touched.new.due.keys p ≡ false → is_marked touched.old.due.keys p ≡ false }
    ensures others_due { (p : ℕ) → p ≢ place → is_marked touched.new.due.keys p ≡ is_marked touched.old.due.keys p }
    ensures restless { OnOk result (is_marked touched.new.restless.keys place ≡ true) }
    ensures stay_restless { (p : ℕ) → is_marked touched.new.restless.keys p ≡ false → is_marked touched.old.restless.keys p ≡ false }
    ensures others_restless { (p : ℕ) → p ≢ place → is_marked touched.new.restless.keys p ≡ is_marked touched.old.restless.keys p }
{
    touched.due.insert(place)?;
    touched.restless.insert(place)?;
    Ok(())
}

/// The first place from this one on that is marked.
pub fn first_from(place: usize, marked: &BTreeSet<usize>) -> Option<usize>
    ensures { FirstMarked marked.now.keys place result }
{
    marked.range(place..).next().copied()
}
