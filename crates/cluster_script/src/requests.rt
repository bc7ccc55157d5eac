//! What users ask of clients.

ghost use Rattle.std.specs.Prelude.{◌≡◌, option_map};
ghost use Rattle.cluster_script.specs.ClusterLines.{open_by, written_by, fill_by, read_by, client_by, stray_by, cluster_event};

use crate::args::Args;
use crate::event::ClusterEvent;
use crate::sizes::ClusterSizes;
use crate::words::{byte_at, bytes_at, client_at, count_at, name_at, place_at};
use ff_script::{Digits, decimal_at};

/// `open C NAME`, behind its first word.
pub fn open<'a>(sizes: ClusterSizes, args: &Args<'a>) -> Option<ClusterEvent<'a>>
    ensures { option_map cluster_event result ≡ open_by sizes args.now }
{
    let (client, name) = args.two()?;
    Some(ClusterEvent::Open {
        client: client_at(sizes, client)?,
        name: name_at(name)?,
    })
}

/// A client, a place and bytes.
pub fn written<'a>(sizes: ClusterSizes, args: &Args<'a>) -> Option<(u32, u64, Digits<'a>)>
    ensures { result ≡ written_by sizes args.now }
{
    let (client, at, bytes) = args.three()?;
    Some((client_at(sizes, client)?, place_at(at)?, bytes_at(bytes)?))
}

/// `fill C AT COUNT BYTE`, behind its first word.
pub fn fill<'a>(sizes: ClusterSizes, args: &Args<'a>) -> Option<ClusterEvent<'a>>
    ensures { option_map cluster_event result ≡ fill_by sizes args.now }
{
    let (client, at, count, byte) = args.four()?;
    Some(ClusterEvent::Fill {
        client: client_at(sizes, client)?,
        at: place_at(at)?,
        count: count_at(count)?,
        byte: byte_at(byte)?,
    })
}

/// `read C AT COUNT`, behind its first word.
pub fn read<'a>(sizes: ClusterSizes, args: &Args<'a>) -> Option<ClusterEvent<'a>>
    ensures { option_map cluster_event result ≡ read_by sizes args.now }
{
    let (client, at, count) = args.three()?;
    Some(ClusterEvent::Read {
        client: client_at(sizes, client)?,
        at: place_at(at)?,
        count: count_at(count)?,
    })
}

/// A client alone.
pub fn client(sizes: ClusterSizes, args: &Args<'_>) -> Option<u32>
    ensures { result ≡ client_by sizes args.now }
{
    client_at(sizes, args.one()?)
}

/// `stray C PLACE AT HEX`, behind its first word.
pub fn stray<'a>(sizes: ClusterSizes, args: &Args<'a>) -> Option<ClusterEvent<'a>>
    ensures { option_map cluster_event result ≡ stray_by sizes args.now }
{
    let (client, mirror, at, bytes) = args.four()?;
    Some(ClusterEvent::Stray {
        client: client_at(sizes, client)?,
        mirror: decimal_at(mirror)?,
        at: place_at(at)?,
        bytes: bytes_at(bytes)?,
    })
}
