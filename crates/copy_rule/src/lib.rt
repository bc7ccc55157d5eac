//! The rule by which a metadata server copies a file: definitions (`specs`), and the plain types that they speak of.
#![tactic(auto)]

mod copy_target;

ghost use Rattle.std.specs.Prelude.{◌≡◌};
ghost use Rattle.copy_rule.specs.WorkedCopies.{two_pieces, two_pieces_shown, none_left, none_left_shown, kept_source, kept_source_shown};

pub use copy_target::{CopyStep, CopyTarget, Target};

/// Copies that are worked out by hand, turn by turn: of two pieces to two targets, of which each answered WRITE shows
/// the ctime last seen; with no target left; from a source that fails and is kept.
pub fn worked_copies()
    ensures two_pieces { two_pieces ≡ two_pieces_shown }
    ensures none_left { none_left ≡ none_left_shown }
    ensures kept_source { kept_source ≡ kept_source_shown }
{}
