//! FSINFO (RFC 1813, section 3.3.19).

ghost use Rattle.std.specs.Prelude.{◌≡◌, []};
ghost use Rattle.ff_xdr.specs.Form.{Fits};
ghost use Rattle.nfs3_wire.specs.Replies.{nfs3_results, reply_value};
ghost use Rattle.ds_procedures.specs.Objects.{object_of};
ghost use Rattle.ds_procedures.specs.Fsinfo.{server_info, fsinfo_reply};
ghost use Rattle.ds_procedures.specs.Answer.{reply_with};
ghost use Rattle.ds_procedures.specs.ServerBases.{server_of};

use crate::object::Place;
use crate::objects::{attributes_of, place_of};
use crate::server_base::ServerBase;
use crate::stored::StoredReply;
use cluster_model::MAX_FILE;
use data_file::DataFile;
use nfs3_wire::{Fattr3, FsInfoArgs, FsInfoOk, FsInfoReply, MAX_DATA, Time3};

/// The size of a READ or a WRITE that is best, in bytes.
pub const PREFERRED: u32 = 65_536;

/// The size of a listing that would be best, in bytes.
pub const LISTING: u32 = 4_096;

/// The file system is the same everywhere, and sets times (`FSF3_HOMOGENEOUS`, `FSF3_CANSETTIME`).
pub const PROPERTIES: u32 = 0x08 | 0x10;

/// What the file system is, and what it can.
fn server_info(attributes: Option<Fattr3>) -> FsInfoOk
    ensures { result ≡ server_info attributes }
{
    FsInfoOk {
        attributes,
        rtmax: MAX_DATA,
        rtpref: PREFERRED,
        rtmult: 1,
        wtmax: MAX_DATA,
        wtpref: PREFERRED,
        wtmult: 1,
        dtpref: LISTING,
        maxfilesize: MAX_FILE,
        time_delta: Time3 {
            seconds: 0,
            nanos: 1,
        },
        properties: PROPERTIES,
    }
}

/// What an FSINFO is answered.
pub fn fsinfo_reply(head: &ServerBase, files: &[DataFile], args: &FsInfoArgs<'_>) -> StoredReply
    ensures reply { reply_with result [] ≡ fsinfo_reply (server_of head.now files.now) (object_of files.now args.now.root.now) }
    ensures fits { Fits nfs3_results (reply_value (reply_with result [])) }
{
    StoredReply::FsInfo(match place_of(files, args.root) {
        Place::Missing(status) => FsInfoReply::Refused(status, None),
        place => FsInfoReply::Done(server_info(attributes_of(head, files, place))),
    })
}
