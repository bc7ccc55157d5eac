//! Files, and data servers that start again.

ghost use Rattle.std.specs.Prelude.{◌≡◌, option_map};
ghost use Rattle.cluster_script.specs.ClusterLines.{pieces_by, restart_by, file_by, cluster_event};

use crate::args::Args;
use crate::event::ClusterEvent;
use crate::sizes::ClusterSizes;
use crate::words::server_at;
use cluster_model::FileId;
use ff_script::{PieceList, decimal_at};

/// `restart D PIECES`, behind its first word.
fn restart_with<'a>(sizes: ClusterSizes, args: &Args<'a>) -> Option<ClusterEvent<'a>>
    ensures { option_map cluster_event result ≡ pieces_by sizes args.now }
{
    let (server, pieces) = args.two()?;
    Some(ClusterEvent::Restart {
        server: server_at(sizes, server)?,
        pieces: PieceList::read(pieces)?,
    })
}

/// `restart D`, alone or with pieces, behind its first word.
pub fn restart<'a>(sizes: ClusterSizes, args: &Args<'a>) -> Option<ClusterEvent<'a>>
    ensures { option_map cluster_event result ≡ restart_by sizes args.now }
{
    match args.one() {
        Some(server) => Some(ClusterEvent::Restart {
            server: server_at(sizes, server)?,
            pieces: PieceList::none(),
        }),
        None => restart_with(sizes, args),
    }
}

/// A file alone.
pub fn file(args: &Args<'_>) -> Option<FileId>
    ensures { option_map (λ f. f.0) result ≡ file_by args.now }
{
    Some(FileId(decimal_at(args.one()?)?))
}
