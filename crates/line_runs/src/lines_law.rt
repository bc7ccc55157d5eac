//! The laws of lines of bytes.
ghost use Rattle.std.specs.Prelude.{◌≡◌, ◌≢◌, ℕ, ◌+◌, ◌-◌, ◌<◌, ◌≤◌, List, [], ◌∷◌, length};
ghost use Rattle.line_runs.specs.Lines.{Line, Last, PastBudget, cut_line, script_lines};

/// How the lines of a script follow from one cut after another.
pub fn line_laws()
    ensures line { (n : ℕ) (bytes line rest : List ℕ) → cut_line n bytes ≡ Line line rest
        → script_lines n bytes ≡ line ∷ script_lines (n - (length line + 1)) rest }
    ensures line_length { (n : ℕ) (bytes line rest : List ℕ) → cut_line n bytes ≡ Line line rest
        → (length bytes ≡ length line + 1 + length rest) × (length line + 1 ≤ n) }
    ensures end { (n : ℕ) (bytes : List ℕ) → cut_line n bytes ≡ Last []
        → (bytes ≡ []) × (script_lines n bytes ≡ []) }
    ensures last { (n : ℕ) (bytes line : List ℕ) → cut_line n bytes ≡ Last line → line ≢ []
        → (script_lines n bytes ≡ line ∷ []) × (bytes ≡ line) × (length bytes ≤ n) }
    ensures over { (n : ℕ) (bytes : List ℕ) → cut_line n bytes ≡ PastBudget
        → (script_lines n bytes ≡ []) × (n < length bytes) }
{}
