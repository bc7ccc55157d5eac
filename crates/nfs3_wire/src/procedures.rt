//! The procedures that are built (RFC 1813, section 3.3).

/// The table of the procedures that have arguments: the number, and the variant of `Call3` and of
/// `Reply3`. It is handed to one of the macros below.
macro_rules! procedures {
    ($then:ident, $($rest:tt)*) => {
        $then! {
            [1 GetAttr, 2 SetAttr, 3 Lookup, 6 Read, 7 Write, 8 Create, 19 FsInfo, 21 Commit]
            $($rest)*
        }
    };
}

/// Whether a number is one of the table's, or that of NULL.
macro_rules! is_one {
    ([$($number:literal $variant:ident),*] $procedure:expr) => {
        matches!($procedure, 0 $(| $number)*)
    };
}

/// The number of a value's procedure.
macro_rules! number_of {
    ([$($number:literal $variant:ident),*] $kind:ident $value:expr) => {
        match $value {
            $kind::Null => 0,
            $($kind::$variant(_) => $number,)*
        }
    };
}

/// What is done with the part that a value holds; NULL has none.
macro_rules! with_part {
    ([$($number:literal $variant:ident),*] $kind:ident $value:expr, $none:expr, $part:ident => $done:expr) => {
        match $value {
            $kind::Null => $none,
            $($kind::$variant($part) => $done,)*
        }
    };
}

/// The value of a procedure that is built, read from a cursor.
macro_rules! read_by {
    ([$($number:literal $variant:ident),*] $kind:ident $procedure:expr, $cursor:expr) => {
        match $procedure {
            0 => $kind::Null,
            $($number => $kind::$variant(Wire::read($cursor)?),)*
            _ => unreachable!(),
        }
    };
}

pub(crate) use is_one;
pub(crate) use number_of;
pub(crate) use procedures;
pub(crate) use read_by;
pub(crate) use with_part;
