//! GETATTR (RFC 1813, section 3.3.1).

ghost use Rattle.std.specs.Prelude.{◌≡◌};
ghost use Rattle.ds_procedures.specs.Objects.{object_of};
ghost use Rattle.ds_procedures.specs.Getattr.{getattr_reply};
ghost use Rattle.ds_procedures.specs.Answer.{reply_with};
ghost use Rattle.ds_procedures.specs.ServerBases.{server_of};
ghost use Rattle.ff_xdr.specs.Form.{Fits};
ghost use Rattle.nfs3_wire.specs.Replies.{nfs3_results, reply_value};
ghost use Rattle.std.specs.Prelude.{[]};

use crate::attributes::root_attributes;
use crate::object::Place;
use crate::objects::{attributes_of_file, place_of};
use crate::server_base::ServerBase;
use crate::stored::StoredReply;
use data_file::DataFile;
use nfs3_wire::{GetAttrArgs, GetAttrReply};

/// What a GETATTR is answered.
pub fn getattr_reply(head: &ServerBase, files: &[DataFile], args: &GetAttrArgs<'_>) -> StoredReply
    ensures reply { reply_with result [] ≡ getattr_reply (server_of head.now files.now) (object_of files.now args.now.file.now) }
    ensures fits { Fits nfs3_results (reply_value (reply_with result [])) }
{
    StoredReply::GetAttr(match place_of(files, args.file) {
        Place::Missing(status) => GetAttrReply::Refused(status, ()),
        Place::Root => GetAttrReply::Done(root_attributes(head.root)),
        Place::File(index) => GetAttrReply::Done(attributes_of_file(files, index)),
    })
}
