//! The handle of a file, and PUTFH (RFC 8881, section 18.19).

ghost use Rattle.std.specs.Prelude.{◌≡◌};
ghost use Rattle.nfs4_types.specs.Handles.{file_handle_of};
ghost use Rattle.nfs4_compound.specs.Results.{op_res_value};
ghost use Rattle.client_file_calls.specs.FileResults.{put_fh_ok};

use cluster_model::FileId;
use nfs4_compound::OpRes;
use nfs4_types::{OpResult, file_handle};

/// The handle of a file (RFC 8881, section 3.2).
pub fn handle_of(file: FileId) -> [u8; 8]
    ensures { result ≡ file_handle_of file.0 }
{
    file_handle(file.0 as u64)
}

/// A PUTFH that is OK (RFC 8881, section 18.19).
pub fn put_fh_ok(of: &OpRes<'_>) -> bool
    ensures { result ≡ put_fh_ok (op_res_value of.now) }
{
    matches!(of, OpRes::PutFh(OpResult::Done(_)))
}
