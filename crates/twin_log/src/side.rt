//! The two files of a log.

ghost use Rattle.std.specs.Prelude.{◌≡◌, Some};
ghost use Rattle.twin_log.specs.Twins.{log_holder, opposite};
ghost use Rattle.twin_log.specs.PlainHolders.{plain_log_holder};

/// One of the two files of a log.
#[derive(Clone, Copy, Debug, PartialEq, Eq)]
pub enum Side {
    /// The disk.
    Disk,
    /// The spare.
    Spare,
}

impl Side {
    /// The other one.
    pub fn other(self) -> Side
        ensures { result ≡ opposite self }
    {
        match self {
            Side::Disk => Side::Spare,
            Side::Spare => Side::Disk,
        }
    }
}

/// Which of two files has the log.
#[derive(Clone, Copy)]
pub enum Holding {
    /// None: there is no log yet.
    Neither,
    /// The one with the greater generation, or with a record.
    On(Side),
    /// Both have the same generation.
    Both,
}

/// Which of two files has the log, by their generations, where they have a record.
pub fn which_holds(disk: Option<u64>, spare: Option<u64>) -> Holding
    ensures { plain_log_holder result ≡ log_holder disk spare }
{
    match (disk, spare) {
        (None, None) => Holding::Neither,
        (Some(_), None) => Holding::On(Side::Disk),
        (None, Some(_)) => Holding::On(Side::Spare),
        (Some(ours), Some(theirs)) => greater(ours, theirs),
    }
}

/// The file with the greater generation.
fn greater(disk: u64, spare: u64) -> Holding
    ensures { plain_log_holder result ≡ log_holder (Some disk) (Some spare) }
{
    if disk == spare {
        return Holding::Both;
    }
    if spare < disk {
        return Holding::On(Side::Disk);
    }
    Holding::On(Side::Spare)
}
