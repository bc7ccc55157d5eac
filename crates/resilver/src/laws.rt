//! What holds of a copy in every run of it.

ghost use Rattle.resilver.specs.CopyLaws.{CopyLaw};

/// An outcome is there just where no target is left, or each target that is left has taken all bytes that were READ from
/// the source, from 0 to the READ that said end, by FILE_SYNC WRITEs that were answered OK, into the file that its CREATE
/// made; the pieces were READ in turn; and behind a source that failed nothing goes out until the next tick (RFC 8435,
/// section 8.3; RFC 1813, sections 3.3.6 to 3.3.8).
pub fn copy_law()
    ensures { CopyLaw }
{}
