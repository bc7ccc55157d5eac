//! What holds of a fence in every run of it.

ghost use Rattle.std.specs.Prelude.{ℕ, List};
ghost use Rattle.cluster_model.specs.declared.ids.Mirror.{Mirror};
ghost use Rattle.fence.specs.FenceLaws.{FenceMove, IsOverJustWhere};

/// Whatever calls are made of a fence, a mirror is over just where an answer to the call that was out to it acknowledged,
/// by OK or by a NOT_SYNC that shows the fresh uid as owner, or where the mirror was dropped. Timeouts, ticks, other
/// answers and calls of other numbers end none (RFC 8435, section 2.2; RFC 1813, section 3.3.2).
pub fn fence_history()
    ensures { (mirrors : List Mirror) (fresh : ℕ) (moves : List FenceMove) → IsOverJustWhere mirrors fresh moves }
{}
