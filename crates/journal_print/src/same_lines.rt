//! Where both traces have the same line.

ghost use Rattle.std.specs.Prelude.{◌≡◌, ◌≤◌, true};
ghost use Rattle.cluster_model.specs.declared.entry.Entry.{Entry};
ghost use Rattle.cluster_model.specs.Print.{hex_len, line_of};
ghost use Rattle.journal_print.specs.Brief.{is_brief, brief_line};

/// An entry with a brief line and at most 64 bytes of data has the same line in both traces.
pub fn brief_law()
    ensures { (entry : Entry) → is_brief entry ≡ true → hex_len entry ≤ 64 → brief_line entry ≡ line_of entry }
{}
