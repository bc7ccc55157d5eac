//! Which mirrors a file has.

ghost use Rattle.std.specs.Prelude.{◌≡◌};

use crate::ids::MirrorId;
use std::marker::Model;

/// A list of mirrors, in the order of a file's live list.
#[derive(Debug, Drop)]
pub struct MirrorIds {
    ids: Vec<MirrorId>,
}

impl Model for MirrorIds {
    ghost use Rattle.std.specs.Prelude.{List};
    ghost use Rattle.cluster_model.specs.declared.ids.MirrorId.{MirrorId};

    ghost Value = { List MirrorId };

    ghost view = { λ m. m.ids.items };
}

impl MirrorIds {
    /// The vector's mirrors; takes no memory.
    pub fn from_vec(ids: Vec<MirrorId>) -> MirrorIds
        ensures { result ≡ ids.items }
    {
        MirrorIds { ids }
    }

    /// The mirrors, in order.
    pub fn as_slice(&self) -> &[MirrorId]
        ensures { result.now ≡ self.now }
    {
        self.ids.as_slice()
    }
}
