//! Which refused operations are not built.

ghost use Rattle.std.specs.Prelude.{◌≡◌, ◌≤◌, Err, length, nat_eq};
ghost use Rattle.std.specs.List.{list_any};
ghost use Rattle.ff_xdr.specs.Reading.{reading};
ghost use Rattle.nfs4_compound.specs.Operations.{stop_at, stop_by, IsRefusedNumber, enum_arms};
ghost use Rattle.nfs4_compound.specs.AllOps.{nfs_argop4};
ghost use Rattle.nfs4_compound.specs.CbArgs.{cb_argop4};

use ff_xdr::{Cursor, XdrError, XdrWhy};

/// The number at the refused operation's place, where a number was refused.
fn refused_number(bytes: &[u8], at: usize, error: XdrError) -> Option<u32>
    requires { at ≤ length bytes.now }
    ensures { IsRefusedNumber bytes.now at error result }
{
    if error.why != XdrWhy::NotEnum {
        return None;
    }
    match Cursor::at(bytes, at).number32() {
        Ok(number) => Some(number),
        Err(_) => None,
    }
}

/// An enum stands in the arguments of the operation: of WRITE, of BIND_CONN_TO_SESSION and of SECINFO_NO_NAME.
fn has_enum(number: u32) -> bool
    ensures { result ≡ list_any (nat_eq number) (enum_arms nfs_argop4) }
{
    number == 38 || number == 41 || number == 52
}

/// The number of a refused operation that is not built, or of which an arm of a union is not. Where an
/// enum stands in the arguments, no union does: a number that is refused there is outside the form. Else
/// it is that of an arm, or the operation's own.
pub(crate) fn unbuilt_op(bytes: &[u8], at: usize, error: XdrError) -> Option<u32>
    requires at { at ≤ length bytes.now }
    requires refused { reading nfs_argop4 bytes.now at ≡ Err error }
    ensures { stop_at nfs_argop4 bytes.now at error ≡ stop_by error result }
{
    let number = refused_number(bytes, at, error)?;
    if has_enum(number) {
        return None;
    }
    Some(number)
}

/// The same of a callback, of which none has an enum.
pub(crate) fn unbuilt_cb_op(bytes: &[u8], at: usize, error: XdrError) -> Option<u32>
    requires at { at ≤ length bytes.now }
    requires refused { reading cb_argop4 bytes.now at ≡ Err error }
    ensures { stop_at cb_argop4 bytes.now at error ≡ stop_by error result }
{
    refused_number(bytes, at, error)
}
