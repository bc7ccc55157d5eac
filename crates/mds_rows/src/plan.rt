//! The plan of a copy.

ghost use Rattle.std.specs.Prelude.{◌≡◌, ◌≤◌, ◌<◌, ◌+◌, ◌^◌, true, drop, take, length};
ghost use Rattle.cluster_model.specs.Mirrors.{has_server, are_mirrors};
ghost use Rattle.file_rule.specs.MdsFiles.{replacing, adding, servers_without, plan_of};
ghost use Rattle.arrayvec.specs.ArrayVec.{array_vec_len};

use arrayvec::ArrayVec;
use cluster_model::{CopyKind, Mirrors};
use copy_rule::Target;
use file_rule::Fresh;
use layout_state::FileState;

/// After a dirty end each live mirror but the first is replaced on its server; else mirrors are added on the lowest
/// servers without a live one, as many as are missing. Their names are numbered from the next one on.
pub fn plan_of(copies: CopyKind, layout: &FileState, fresh: &Fresh) -> ArrayVec<Target, 4>
    requires few { layout.now.wanted ≤ 4 }
    requires names { fresh.now.name + 4 < 2 ^ 64 }
    ensures plan { result.items ≡ plan_of copies layout.now fresh.now }
    ensures mirrors { are_mirrors layout.now.live ≡ true }
{
    let live = layout.live();
    let missing = (layout.wanted() as usize).saturating_sub(live.len());
    match copies {
        CopyKind::Replacing => replacing(live, fresh.name),
        CopyKind::Adding => adding(missing, live, fresh),
    }
}

/// Each mirror but the first, with the names from this number on.
fn replacing(live: Mirrors, name: u64) -> ArrayVec<Target, 4>
    requires names { name + 4 < 2 ^ 64 }
    ensures { result.items ≡ replacing name (drop 1 live) }
{
    let mut plan = ArrayVec::new();
    for place in 1..live.len() {
        let Some(mirror) = live.get(place) else {
            return plan;
        };
        plan.push(Target {
            server: mirror.id.server,
            name: name + place as u64 - 1,
            replaced: Some(mirror.id),
        });
    }
    plan
}

/// So many servers without a live mirror, the lowest first.
fn adding(missing: usize, live: Mirrors, fresh: &Fresh) -> ArrayVec<Target, 4>
    requires few { missing ≤ 4 }
    requires names { fresh.now.name + 4 < 2 ^ 64 }
    ensures { result.items ≡ adding fresh.now.name (take missing (servers_without fresh.now.servers live)) }
{
    let mut plan = ArrayVec::new();
    for below in 0..fresh.servers {
        if plan.len() == missing {
            return plan;
        }
        let server = below + 1;
        if has_server(live, server) {
            continue;
        }
        let name = fresh.name + plan.len() as u64;
        plan.push(Target {
            server,
            name,
            replaced: None,
        });
    }
    plan
}

/// One of the mirrors is on the server.
fn has_server(live: Mirrors, server: u32) -> bool
    ensures { result ≡ has_server live server }
{
    for place in 0..live.len() {
        let Some(mirror) = live.get(place) else {
            return false;
        };
        if mirror.id.server == server {
            return true;
        }
    }
    false
}
