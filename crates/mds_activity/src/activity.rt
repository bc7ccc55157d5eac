//! What a file has under way.

use cluster_model::{CallStage, CopyKind, Cred};
use fence::Fence;
use mds_creations::Creations;
use resilver::Copy;

/// CREATEs, a fence, the COMMIT of the mirror from which the others are to be copied, the copy; or nothing. What a copy is
/// for, and its user, stand here too, since a file's state does not show them.
#[derive(Debug, Drop)]
pub enum Activity {
    Idle,
    Makes(Creations),
    Fences(Fence),
    Settles {
        copies: CopyKind,
        stage: CallStage,
    },
    Copies {
        copier: Cred,
        copies: CopyKind,
        copy: Copy,
    },
}
