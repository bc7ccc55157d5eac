//! The arms of a reply by their numbers (RFC 5531, section 9).

/// The table of the arms, of an accepted reply (but that of a success, 0) and of one that is denied: the
/// number, the variant of `ReplyBody` with its fields, and these as what follows the number. It is
/// handed to one of the macros below.
macro_rules! reply_arms {
    ($then:ident, $($rest:tt)*) => {
        $then! {
            [
                1 ProgUnavail,
                2 ProgMismatch with { low, high } (low, high),
                3 ProcUnavail,
                4 GarbageArgs,
                5 SystemErr
            ]
            [0 RpcMismatch with { low, high } (low, high), 1 AuthError with (stat) stat]
            $($rest)*
        }
    };
}

/// The body of an accepted reply with this `accept_stat`, without results, its parts read from a cursor.
macro_rules! accepted_by {
    (
        [$($number:literal $variant:ident $(with $fields:tt $parts:tt)?),*] $denied:tt
        $stat:expr, $cursor:expr, $refusal:expr
    ) => {
        match $stat {
            0 => ReplyBody::Success(&[]),
            $($number => {
                $(let $parts = Wire::read($cursor)?;)?
                ReplyBody::$variant $($fields)?
            })*
            _ => return Err($refusal),
        }
    };
}

/// The body of a denied reply with this `reject_stat`, its parts read from a cursor.
macro_rules! denied_by {
    (
        $accepted:tt [$($number:literal $variant:ident $(with $fields:tt $parts:tt)?),*]
        $stat:expr, $cursor:expr, $refusal:expr
    ) => {
        match $stat {
            $($number => {
                $(let $parts = Wire::read($cursor)?;)?
                ReplyBody::$variant $($fields)?
            })*
            _ => return Err($refusal),
        }
    };
}

/// What is done with the parts of a reply's body, of an accepted one and of one that is denied.
macro_rules! with_parts {
    (
        [$($number:literal $variant:ident $(with $fields:tt $parts:tt)?),*]
        [$($reject:literal $denied:ident $(with $held:tt $said:tt)?),*]
        $body:expr, $verf:expr, $all:ident => $then:expr, $else:expr
    ) => {
        match $body {
            ReplyBody::Success(_) => {
                let $all = (0u32, $verf, 0u32);
                $then
            }
            $(ReplyBody::$variant $($fields)? => {
                let number: u32 = $number;
                let $all = (0u32, $verf, (number $(, $parts)?));
                $then
            })*
            $(ReplyBody::$denied $($held)? => {
                let number: u32 = $reject;
                let $all = (1u32, (number $(, $said)?));
                $else
            })*
        }
    };
}

/// Whether a reply is denied.
macro_rules! is_denied_arm {
    (
        $accepted:tt [$($number:literal $variant:ident $(with $fields:tt $parts:tt)?),*]
        $body:expr
    ) => {
        matches!($body, $(ReplyBody::$variant { .. })|*)
    };
}

/// The number of a reply's arm, its `accept_stat` or `reject_stat`.
macro_rules! arm_number {
    (
        [$($number:literal $variant:ident $(with $fields:tt $parts:tt)?),*]
        [$($reject:literal $denied:ident $(with $held:tt $said:tt)?),*]
        $body:expr
    ) => {
        match $body {
            ReplyBody::Success(_) => 0,
            $(ReplyBody::$variant { .. } => $number,)*
            $(ReplyBody::$denied { .. } => $reject,)*
        }
    };
}

pub(crate) use accepted_by;
pub(crate) use arm_number;
pub(crate) use denied_by;
pub(crate) use is_denied_arm;
pub(crate) use reply_arms;
pub(crate) use with_parts;
