//! What the entries of a step of a file tell.

ghost use Rattle.std.specs.Prelude.{◌≡◌, filter, length};
ghost use Rattle.std.specs.List.{list_any};
ghost use Rattle.mds_rule.specs.ServedFiles.{is_of_period, is_period_end, is_swap};

use cluster_model::Entry;

/// A period was granted, or ended.
fn is_of_period(entry: &Entry) -> bool
    ensures { result ≡ is_of_period entry.now }
{
    matches!(entry, Entry::Granted { .. } | Entry::Ended { .. })
}

/// A period ended.
fn is_period_end(entry: &Entry) -> bool
    ensures { result ≡ is_period_end entry.now }
{
    matches!(entry, Entry::Ended { .. })
}

/// A mirror came into the live list.
fn is_swap(entry: &Entry) -> bool
    ensures { result ≡ is_swap entry.now }
{
    matches!(entry, Entry::Swapped { .. })
}

/// How many periods were granted and ended.
pub fn count_periods(entries: &[Entry]) -> usize
    ensures { result ≡ length (filter is_of_period entries.now) }
{
    let mut count = 0;
    for entry in entries {
        if is_of_period(entry) {
            count += 1;
        }
    }
    count
}

/// A period ended.
pub fn has_period_end(entries: &[Entry]) -> bool
    ensures { result ≡ list_any is_period_end entries.now }
{
    for entry in entries {
        if is_period_end(entry) {
            return true;
        }
    }
    false
}

/// A mirror came into the live list.
pub fn has_swap(entries: &[Entry]) -> bool
    ensures { result ≡ list_any is_swap entries.now }
{
    for entry in entries {
        if is_swap(entry) {
            return true;
        }
    }
    false
}
