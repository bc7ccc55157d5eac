//! What the answer to a COMMIT makes of the answered writes of a mirror.

ghost use Rattle.std.specs.Prelude.{◌≡◌, ◌≤◌, ◌+◌, ◌++◌, length, map, not, count_by, slice_set, true, if◌then◌else◌};
ghost use Rattle.std.specs.List.{filter};
ghost use Rattle.std.specs.VecDeque.{deque_len, deque_capacity};
ghost use Rattle.mirror_writer.specs.Writers.{has_verifier, covered_by};

use crate::call::WriteAnswer;
use std::collections::VecDeque;

/// The writes whose answer has another verifier wait again, in the order of their answers.
pub fn requeue(answered: &[WriteAnswer], verifier: u64, queue: &mut VecDeque<usize>)
    requires { deque_len queue.old + length answered.now ≤ deque_capacity queue.old }
    ensures items { queue.new.items ≡ queue.old.items ++ map (λ a. a.write) (filter (λ a. not (has_verifier verifier a)) answered.now) }
    ensures size { deque_len queue.new ≤ deque_len queue.old + length answered.now }
    ensures room { deque_capacity queue.new ≡ deque_capacity queue.old }
{
    for answer in answered {
        if answer.verifier != verifier {
            queue.push_back_reserved(answer.write);
        }
    }
}

/// The writes whose answer has this verifier are covered; answers how many were not before.
pub fn cover(answered: &[WriteAnswer], verifier: u64, covered: &mut [bool]) -> usize
    ensures flags { covered.new ≡ covered_by (filter (has_verifier verifier) answered.now) covered.old }
    ensures count { result + count_by not covered.new ≡ count_by not covered.old }
{
    let mut count = 0;
    for answer in answered {
        count += cover_if(*answer, verifier, covered);
    }
    count
}

/// The write of this answer is covered where the answer has this verifier; answers 1 where it was not before.
fn cover_if(answer: WriteAnswer, verifier: u64, covered: &mut [bool]) -> usize
    ensures flags { covered.new ≡ (if has_verifier verifier answer then slice_set covered.old answer.write true else covered.old) }
    ensures count { result + count_by not covered.new ≡ count_by not covered.old }
{
    if answer.verifier == verifier && answer.write < covered.len() && !covered[answer.write] {
        covered[answer.write] = true;
        return 1;
    }
    0
}
