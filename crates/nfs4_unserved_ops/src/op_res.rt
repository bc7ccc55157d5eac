//! The results of operations that are read and not carried out (RFC 8881, section 18).

ghost use Rattle.std.specs.Prelude.{◌≡◌, ◌≢◌, IsTrue, nat_eq, refl};
ghost use Rattle.std.specs.List.{list_any};
ghost use Rattle.ff_xdr.specs.Form.{Fits};
ghost use Rattle.nfs4_types.specs.declared.status.Stat4.TheVariants as stat;
ghost use Rattle.nfs4_unserved_ops.specs.Results.{result_numbers, unserved_resop4, unserved_res_value, unserved_number, unserved_refused};

use crate::{
    AccessRes, FreeStateidRes, OpenDowngradeRes, RestoreFhRes, SaveFhRes, SecInfoNoNameRes,
    SetAttrRes, TestStateidRes,
};
use ff_xdr::{Cursor, Items, Message, NoMemory, Out, Wire, XdrError};
use nfs4_types::{Bitmap, OpResult, Refusal4, Stat4};

/// The results of operations with this number have a form of their own, here or among the operations that are carried out.
fn has_result(number: u32) -> bool
    ensures { result ≡ list_any (nat_eq number) result_numbers }
{
    matches!(
        number,
        3 | 4
            | 5
            | 9
            | 10
            | 15
            | 18
            | 21
            | 22
            | 24
            | 25
            | 31
            | 32
            | 34
            | 38
            | 41
            | 42
            | 43
            | 44
            | 45
            | 47
            | 49
            | 50
            | 51
            | 52
            | 53
            | 55
            | 57
            | 58
    )
}

/// The result of an operation that is not carried out. Under a number of no form stands a status other than OK, and nothing more.
#[derive(Clone, Copy, Debug)]
pub enum UnservedRes<'a> {
    /// RFC 8881, section 18.1.
    Access(AccessRes),
    /// RFC 8881, section 18.18.
    OpenDowngrade(OpenDowngradeRes),
    /// RFC 8881, section 18.27.
    RestoreFh(RestoreFhRes),
    /// RFC 8881, section 18.28.
    SaveFh(SaveFhRes),
    /// RFC 8881, section 18.30.
    SetAttr(SetAttrRes<'a>),
    /// RFC 8881, section 18.38.
    FreeStateid(FreeStateidRes),
    /// RFC 8881, section 18.45.
    SecInfoNoName(SecInfoNoNameRes<'a>),
    /// RFC 8881, section 18.48.
    TestStateid(TestStateidRes<'a>),
    /// A status other than OK under a number of no form.
    Unbuilt(u32, Stat4),
}

impl<'a> UnservedRes<'a> {
    /// The number under which it stands.
    pub fn number(&self) -> u32
        ensures { result ≡ unserved_number (unserved_res_value self.now) }
    {
        match self {
            UnservedRes::Access(_) => 3,
            UnservedRes::OpenDowngrade(_) => 21,
            UnservedRes::RestoreFh(_) => 31,
            UnservedRes::SaveFh(_) => 32,
            UnservedRes::SetAttr(_) => 34,
            UnservedRes::FreeStateid(_) => 45,
            UnservedRes::SecInfoNoName(_) => 52,
            UnservedRes::TestStateid(_) => 55,
            UnservedRes::Unbuilt(number, _) => *number,
        }
    }

    /// The operation with this number, of none that is carried out, was refused by this status, which is not OK.
    pub fn refused(number: u32, status: Stat4) -> UnservedRes<'static>
        ensures value { unserved_res_value result ≡ unserved_refused number status }
    {
        match number {
            3 => UnservedRes::Access(OpResult::Refused(status)),
            21 => UnservedRes::OpenDowngrade(OpResult::Refused(status)),
            31 => UnservedRes::RestoreFh(OpResult::Refused(status)),
            32 => UnservedRes::SaveFh(OpResult::Refused(status)),
            34 => UnservedRes::SetAttr(SetAttrRes {
                status,
                set: Bitmap {
                    words: Items::made(&[]),
                },
            }),
            45 => UnservedRes::FreeStateid(OpResult::Refused(status)),
            52 => UnservedRes::SecInfoNoName(OpResult::Refused(status)),
            55 => UnservedRes::TestStateid(OpResult::Refused(status)),
            _ => UnservedRes::Unbuilt(number, status),
        }
    }
}

impl<'a> Message for UnservedRes<'a> {
    ghost form = { unserved_resop4 };

    ghost meaning = { unserved_res_value };

    ghost sound = { refl };
}

impl<'a> Wire<'a> for UnservedRes<'a> {
    fn read(cursor: &mut Cursor<'a>) -> Result<UnservedRes<'a>, XdrError> {
        let mut fork = cursor.fork();
        let number = fork.number32()?;
        let result = match number {
            3 => UnservedRes::Access(Wire::read(&mut fork)?),
            21 => UnservedRes::OpenDowngrade(Wire::read(&mut fork)?),
            31 => UnservedRes::RestoreFh(Wire::read(&mut fork)?),
            32 => UnservedRes::SaveFh(Wire::read(&mut fork)?),
            34 => UnservedRes::SetAttr(Wire::read(&mut fork)?),
            45 => UnservedRes::FreeStateid(Wire::read(&mut fork)?),
            52 => UnservedRes::SecInfoNoName(Wire::read(&mut fork)?),
            55 => UnservedRes::TestStateid(Wire::read(&mut fork)?),
            _ => {
                if has_result(number) {
                    return Err(XdrError::not_enum(cursor.place()));
                }
                let refusal = Refusal4::read(&mut fork)?;
                UnservedRes::Unbuilt(number, refusal.status)
            }
        };
        *cursor = fork;
        Ok(result)
    }

    fn put(&self, out: &mut Out) -> Result<(), NoMemory> {
        match self {
            UnservedRes::Access(result) => (3u32, *result).put(out),
            UnservedRes::OpenDowngrade(result) => (21u32, *result).put(out),
            UnservedRes::RestoreFh(result) => (31u32, *result).put(out),
            UnservedRes::SaveFh(result) => (32u32, *result).put(out),
            UnservedRes::SetAttr(result) => (34u32, *result).put(out),
            UnservedRes::FreeStateid(result) => (45u32, *result).put(out),
            UnservedRes::SecInfoNoName(result) => (52u32, *result).put(out),
            UnservedRes::TestStateid(result) => (55u32, *result).put(out),
            UnservedRes::Unbuilt(number, status) => (*number, Refusal4 { status: *status }).put(
                out,
            ),
        }
    }

    fn fits(&self) -> bool {
        match self {
            UnservedRes::Access(result) => result.fits(),
            UnservedRes::OpenDowngrade(result) => result.fits(),
            UnservedRes::RestoreFh(result) => result.fits(),
            UnservedRes::SaveFh(result) => result.fits(),
            UnservedRes::SetAttr(result) => result.fits(),
            UnservedRes::FreeStateid(result) => result.fits(),
            UnservedRes::SecInfoNoName(result) => result.fits(),
            UnservedRes::TestStateid(result) => result.fits(),
            UnservedRes::Unbuilt(number, status) => {
                !has_result(*number) && Refusal4 { status: *status }.fits()
            }
        }
    }
}
