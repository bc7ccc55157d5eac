//! The operations that are carried out, by number (RFC 8881, sections 18 and 20).

/// The table of the operations: the number and the variant of `Op` and of `OpRes`, first of those that
/// have arguments, then of the others. It is handed to one of the macros below.
macro_rules! operations {
    ($then:ident, $($rest:tt)*) => {
        $then! {
            [4 Close, 5 Commit, 9 GetAttr, 15 Lookup, 18 Open, 22 PutFh, 25 Read, 38 Write, 41 BindConn,
             42 ExchangeId, 43 CreateSession, 44 DestroySession, 47 GetDeviceInfo, 49 LayoutCommit,
             50 LayoutGet, 51 LayoutReturn, 53 Sequence, 57 DestroyClientId, 58 ReclaimComplete]
            [10 GetFh, 24 PutRootFh]
            $($rest)*
        }
    };
}

/// The same table of the operations of callbacks.
macro_rules! callbacks {
    ($then:ident, $($rest:tt)*) => {
        $then! { [5 LayoutRecall, 11 Sequence] [] $($rest)* }
    };
}

/// Whether a number is one of the table's.
macro_rules! is_one {
    ([$($number:literal $variant:ident),*] [$($bare_number:literal $bare:ident),*] $of:expr) => {
        matches!($of, $($number)|* $(| $bare_number)*)
    };
}

/// The number of an operation.
macro_rules! number_of {
    ([$($number:literal $variant:ident),*] [$($bare_number:literal $bare:ident),*] $kind:ident $op:expr) => {
        match $op {
            $($kind::$variant(_) => $number,)*
            $($kind::$bare => $bare_number,)*
        }
    };
}

/// The operation with a number that is built, its arguments read from a cursor.
macro_rules! read_args {
    ([$($number:literal $variant:ident),*] [$($bare_number:literal $bare:ident),*] $kind:ident $of:expr, $cursor:expr) => {
        match $of {
            $($number => Ok($kind::$variant(Wire::read($cursor)?)),)*
            $($bare_number => Ok($kind::$bare),)*
            _ => unreachable!(),
        }
    };
}

/// Appends an operation, its number first.
macro_rules! put_args {
    ([$($number:literal $variant:ident),*] [$($bare_number:literal $bare:ident),*] $kind:ident $op:expr, $out:expr) => {
        match $op {
            $($kind::$variant(args) => {
                let number: u32 = $number;
                (number, *args).put($out)
            })*
            $($kind::$bare => {
                let number: u32 = $bare_number;
                number.put($out)
            })*
        }
    };
}

/// The arguments of an operation have a spelling.
macro_rules! fits_args {
    ([$($number:literal $variant:ident),*] [$($bare_number:literal $bare:ident),*] $kind:ident $op:expr) => {
        match $op {
            $($kind::$variant(args) => Wire::fits(args),)*
            $($kind::$bare => true,)*
        }
    };
}

/// The number under which a result stands; the last arms are those of the other results.
macro_rules! number_of_result {
    ([$($number:literal $variant:ident),*] [$($bare_number:literal $bare:ident),*] $kind:ident $result:expr, [$($others:tt)*]) => {
        match $result {
            $($kind::$variant(_) => $number,)*
            $($kind::$bare(_) => $bare_number,)*
            $($others)*
        }
    };
}

/// The result under a number that is built, read from a cursor.
macro_rules! read_result {
    ([$($number:literal $variant:ident),*] [$($bare_number:literal $bare:ident),*] $kind:ident $of:expr, $cursor:expr) => {
        match $of {
            $($number => Ok($kind::$variant(Wire::read($cursor)?)),)*
            $($bare_number => Ok($kind::$bare(Wire::read($cursor)?)),)*
            _ => unreachable!(),
        }
    };
}

/// Appends a result, its number first; the last arms are those of the other results.
macro_rules! put_result {
    ([$($number:literal $variant:ident),*] [$($bare_number:literal $bare:ident),*] $kind:ident $result:expr, $out:expr, [$($others:tt)*]) => {
        match $result {
            $($kind::$variant(result) => {
                let number: u32 = $number;
                (number, *result).put($out)
            })*
            $($kind::$bare(result) => {
                let number: u32 = $bare_number;
                (number, *result).put($out)
            })*
            $($others)*
        }
    };
}

/// A result as its variant and what is in it; the last arms are those of the other results.
macro_rules! debug_result {
    ([$($number:literal $variant:ident),*] [$($bare_number:literal $bare:ident),*] $kind:ident $result:expr, $f:expr, [$($others:tt)*]) => {
        match $result {
            $($kind::$variant(result) => $f.debug_tuple(stringify!($variant)).field(result).finish(),)*
            $($kind::$bare(result) => $f.debug_tuple(stringify!($bare)).field(result).finish(),)*
            $($others)*
        }
    };
}

/// A result has a spelling; the last arms are those of the other results.
macro_rules! fits_result {
    ([$($number:literal $variant:ident),*] [$($bare_number:literal $bare:ident),*] $kind:ident $result:expr, [$($others:tt)*]) => {
        match $result {
            $($kind::$variant(result) => Wire::fits(result),)*
            $($kind::$bare(result) => Wire::fits(result),)*
            $($others)*
        }
    };
}

pub(crate) use callbacks;
pub(crate) use debug_result;
pub(crate) use fits_args;
pub(crate) use fits_result;
pub(crate) use is_one;
pub(crate) use number_of;
pub(crate) use number_of_result;
pub(crate) use operations;
pub(crate) use put_args;
pub(crate) use put_result;
pub(crate) use read_args;
pub(crate) use read_result;
