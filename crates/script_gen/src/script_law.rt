//! That a generated script is a script.

ghost use Rattle.std.specs.Prelude.{◌≡◌, ℕ, ◌≤◌, length};
ghost use Rattle.line_runs.specs.Lines.{script_lines};
ghost use Rattle.script_gen.specs.Generated.{generated};
ghost use Rattle.script_gen.specs.ScriptLaw.{IsScriptOfEvents};

/// A generated script has 2,010 lines, and each is one of a script of a cluster: the first is its setup, and
/// each other an event.
pub fn generated_law()
    ensures lines { (seed budget : ℕ) → length (generated seed) ≤ budget → IsScriptOfEvents (script_lines budget (generated seed)) }
    ensures count { (seed budget : ℕ) → length (generated seed) ≤ budget → length (script_lines budget (generated seed)) ≡ 2010 }
{}
