//! Numbers from 1, and where in a list they are.

ghost use Rattle.std.specs.Prelude.{◌≡◌, ◌+◌, ◌<◌, IfSome};
ghost use Rattle.cluster_machines.specs.Indexes.{index_at};

/// The index, from 0, of a number from 1 in a list of so many.
pub fn index_of(number: u32, count: usize) -> Option<usize>
    ensures exact { result ≡ index_at number count }
    ensures within { IfSome result (λ index. (index < count) × (index + 1 ≡ number)) }
{
    if number == 0 {
        return None;
    }
    let index = number as usize - 1;
    if index >= count {
        return None;
    }
    Some(index)
}
