//! What is true of every journal.

ghost use Rattle.std.specs.Prelude.{◌≡◌, List};
ghost use Rattle.cluster_model.specs.declared.entry.Entry.{Entry};
ghost use Rattle.cluster_model.specs.Print.{print};
ghost use Rattle.cluster_model.specs.Prints.{FitsJournal};

/// Different journals have different texts.
pub fn distinct_prints()
    ensures { (a b : List Entry) → FitsJournal a → FitsJournal b → print a ≡ print b → a ≡ b }
{}
