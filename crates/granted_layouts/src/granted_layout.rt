//! The body of a layout (RFC 8435, section 5.1).

ghost use Rattle.std.specs.Prelude.{◌≡◌, ◌<◌, ◌^◌, length, map, IfOk};
ghost use Rattle.std.specs.List.{flat_map};
ghost use Rattle.ff_xdr.specs.Form.{Fits, spelling};
ghost use Rattle.ff_xdr.specs.Calls.{Grows};
ghost use Rattle.ff_layout.specs.DataServer.{ff_data_server4, ff_data_server4_value};
ghost use Rattle.ff_layout.specs.Mirror.{ff_mirror4};
ghost use Rattle.granted_layouts.specs.GrantedBodies.{layout_body, mirror_under};

use crate::layout_answer::layout_size;
use cluster_model::{Cred, Mirror, Mirrors};
use ff_layout::FfDataServer;
use ff_xdr::{Data, Items, NoMemory, Out, Wire};
use itoa::Buffer;
use nfs4_types::{Handle4, Stateid, device_of, file_handle};
use std::alloc::Global;

/// How many bytes of a file stand on one data server of a mirror before the next server's turn. A mirror has one server here.
pub const STRIPE_UNIT: u64 = 65_536;

/// FF_FLAGS_NO_LAYOUTCOMMIT (RFC 8435, section 5.1).
pub const NO_LAYOUTCOMMIT: u32 = 1;

/// Appends a mirror, on its one data server. At an error a part of it may stand.
fn put_granted_mirror(cred: Cred, mirror: Mirror, out: &mut Out) -> Result<(), NoMemory>
    ensures { Grows out.old result out.new (spelling ff_mirror4 (mirror_under cred.0 mirror)) }
{
    let mut buffer = Buffer::new();
    let user = buffer.format(cred.0);
    let handle = file_handle(mirror.id.fileid);
    let handles = [Handle4 { bytes: &handle }];
    let server = FfDataServer {
        device: device_of(mirror.id.server),
        efficiency: 1,
        stateid: Stateid {
            seqid: 0,
            other: [0; 12],
        },
        handles: Items::made(&handles),
        user,
        group: user,
    };
    (1u32, server).put(out)
}

/// Appends the mirrors. At an error a part of it may stand.
fn put_granted_mirrors(cred: Cred, mirrors: Mirrors, out: &mut Out) -> Result<(), NoMemory>
    ensures { Grows out.old result out.new (flat_map (λ m. spelling ff_mirror4 (mirror_under cred.0 m)) mirrors) }
{
    for place in 0..mirrors.len() {
        let Some(mirror) = mirrors.get(place) else {
            return Ok(());
        };
        put_granted_mirror(cred, mirror, out)?;
    }
    Ok(())
}

/// The body of the layout of these mirrors under this uid, `ff_layout4`. Takes memory.
pub fn layout_body(alloc: Global, cred: Cred, mirrors: Mirrors) -> Result<Data, NoMemory>
    ensures exact { IfOk result (λ body. body ≡ layout_body cred.0 mirrors) }
    ensures few { IfOk result (λ body. length body < 2 ^ 32) }
{
    // no byte is made by it: it tells the checker that the body is short
    let _size = layout_size(cred, mirrors.len());
    let mut out = Out::new(alloc);
    (STRIPE_UNIT, mirrors.len() as u32).put(&mut out)?;
    put_granted_mirrors(cred, mirrors, &mut out)?;
    (NO_LAYOUTCOMMIT, 0u32).put(&mut out)?;
    Ok(Data::from_vec(out.into_bytes()))
}
