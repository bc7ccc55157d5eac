//! A status other than OK, as the result of an operation.

ghost use Rattle.std.specs.Prelude.{◌≡◌, ◌≢◌, ◌==◌};
ghost use Rattle.ff_xdr.specs.Form.{Fits};
ghost use Rattle.nfs4_types.specs.declared.status.Stat4.TheVariants as stat;
ghost use Rattle.nfs4_compound.specs.Results.{resop4, op_res_value};
ghost use Rattle.mds_rule.specs.OpSteps.{refused_as};
ghost use Rattle.compound_run.specs.CompoundRuns.{Where};

use nfs4_compound::OpRes;
use nfs4_compound::nfs4_file_ops::{GetDeviceInfoRes, LayoutGetRes};
use nfs4_compound::nfs4_unserved_ops::UnservedRes;
use nfs4_types::{OpResult, Stat4};

/// The operation with this number is refused by this status, which is not OK (RFC 8881, section 16.2.3).
pub fn refusal(number: u32, status: Stat4) -> OpRes<'static>
    requires refusal { status ≢ stat.Ok }
    requires no_size { Where (number == 47) (status ≢ stat.TooSmall) }
    requires no_word { Where (number == 50) (status ≢ stat.LayoutTryLater) }
    ensures value { op_res_value result ≡ refused_as number status }
    ensures fits { Fits resop4 (op_res_value result) }
{
    match number {
        4 => OpRes::Close(OpResult::Refused(status)),
        5 => OpRes::Commit(OpResult::Refused(status)),
        9 => OpRes::GetAttr(OpResult::Refused(status)),
        10 => OpRes::GetFh(OpResult::Refused(status)),
        15 => OpRes::Lookup(OpResult::Refused(status)),
        18 => OpRes::Open(OpResult::Refused(status)),
        22 => OpRes::PutFh(OpResult::Refused(status)),
        24 => OpRes::PutRootFh(OpResult::Refused(status)),
        25 => OpRes::Read(OpResult::Refused(status)),
        38 => OpRes::Write(OpResult::Refused(status)),
        41 => OpRes::BindConn(OpResult::Refused(status)),
        42 => OpRes::ExchangeId(OpResult::Refused(status)),
        43 => OpRes::CreateSession(OpResult::Refused(status)),
        44 => OpRes::DestroySession(OpResult::Refused(status)),
        47 => OpRes::GetDeviceInfo(GetDeviceInfoRes::Refused(status)),
        49 => OpRes::LayoutCommit(OpResult::Refused(status)),
        50 => OpRes::LayoutGet(LayoutGetRes::Refused(status)),
        51 => OpRes::LayoutReturn(OpResult::Refused(status)),
        53 => OpRes::Sequence(OpResult::Refused(status)),
        57 => OpRes::DestroyClientId(OpResult::Refused(status)),
        58 => OpRes::ReclaimComplete(OpResult::Refused(status)),
        _ => OpRes::Unserved(UnservedRes::refused(number, status)),
    }
}
