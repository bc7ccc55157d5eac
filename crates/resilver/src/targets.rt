//! The targets of a copy.

ghost use Rattle.std.specs.Prelude.{◌≡◌, ◌≤◌, ◌<◌, ◌++◌, ◌==◌, ◌&&◌, length, map, filter, position};
ghost use Rattle.std.specs.List.{list_all, list_any, flat_map};
ghost use Rattle.cluster_model.specs.Fences.{waits, is_out, is_over};
ghost use Rattle.copy_rule.specs.Copies.{is_given_up, to_write, swap_of};

use crate::call::is_given_up;
use crate::target::to_write;
use arrayvec::ArrayVec;
use call_stage::{is_out, is_over, waits};
use cluster_model::{SwappedIn, Targets};
use copy_rule::CopyTarget;

/// The place of the first target to which a call waits.
pub fn waiting(targets: &[CopyTarget]) -> Option<usize>
    ensures { result ≡ position (λ t. waits t.stage) targets.now }
{
    for (place, target) in targets.iter().enumerate() {
        if waits(target.stage) {
            return Some(place);
        }
    }
    None
}

/// The place of the target whose call has this number.
pub fn outstanding(xid: u32, targets: &[CopyTarget]) -> Option<usize>
    ensures { result ≡ position (λ t. is_out xid t.stage) targets.now }
{
    for (place, target) in targets.iter().enumerate() {
        if is_out(xid, target.stage) {
            return Some(place);
        }
    }
    None
}

/// One of them is outstanding to this server under this number.
pub fn is_out_to(server: u32, xid: u32, targets: &[CopyTarget]) -> bool
    ensures { result ≡ list_any (λ t. t.server == server && is_out xid t.stage) targets.now }
{
    for target in targets {
        if target.server == server && is_out(xid, target.stage) {
            return true;
        }
    }
    false
}

/// The servers of the targets to which a call waits.
pub fn servers_of_waiting(targets: &[CopyTarget]) -> ArrayVec<u32, 4>
    requires few { length targets.now ≤ 4 }
    ensures { result.items ≡ map (λ t. t.server) (filter (λ t. waits t.stage) targets.now) }
{
    let mut servers = ArrayVec::new();
    for target in targets {
        if waits(target.stage) {
            servers.push(target.server);
        }
    }
    servers
}

/// Each call is over.
pub fn are_over(targets: &[CopyTarget]) -> bool
    ensures { result ≡ list_all (λ t. is_over t.stage) targets.now }
{
    for target in targets {
        if !is_over(target.stage) {
            return false;
        }
    }
    true
}

/// Each target was thrown away.
pub fn are_given_up(targets: &[CopyTarget]) -> bool
    ensures { result ≡ list_all (λ t. is_given_up t.stage) targets.now }
{
    for target in targets {
        if !is_given_up(target.stage) {
            return false;
        }
    }
    true
}

/// A piece is to be written to each target that is left.
pub fn write_all(piece: &[u8], targets: &mut [CopyTarget])
    ensures { targets.new ≡ map (to_write piece.now) targets.old }
{
    for target in targets {
        *target = to_write(piece, *target);
    }
}

/// The targets that are left, with the mirrors that they replace.
pub fn swaps(targets: &[CopyTarget]) -> Targets
    requires few { length targets.now ≤ 4 }
    ensures { result ≡ flat_map (λ t. swap_of t t.made) targets.now }
{
    let mut swaps = Targets::none();
    for target in targets {
        add_swap(*target, &mut swaps);
    }
    swaps
}

/// The target is one more, where it is left.
fn add_swap(target: CopyTarget, swaps: &mut Targets)
    requires few { length swaps.old < 4 }
    ensures { swaps.new ≡ swaps.old ++ swap_of target target.made }
{
    if let Some(new) = target.made {
        swaps.add(SwappedIn {
            new,
            old: target.replaced,
        });
    }
}
