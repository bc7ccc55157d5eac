//! LOOKUP (RFC 1813, section 3.3.3).

ghost use Rattle.std.specs.Prelude.{◌≡◌, []};
ghost use Rattle.ff_xdr.specs.Form.{Fits};
ghost use Rattle.nfs3_wire.specs.Replies.{nfs3_results, reply_value};
ghost use Rattle.ds_procedures.specs.Objects.{object_of, Root};
ghost use Rattle.ds_procedures.specs.Lookup.{lookup_reply};
ghost use Rattle.ds_procedures.specs.Answer.{reply_with};
ghost use Rattle.ds_procedures.specs.ServerBases.{IsServer, server_of};

use crate::attributes::root_attributes;
use crate::object::Place;
use crate::objects::{attributes_at, attributes_of_file, handle_of, place_of};
use crate::server_base::ServerBase;
use crate::stored::StoredReply;
use data_file::DataFile;
use nfs3_wire::{LookupArgs, Stat3};

/// The longest name, in bytes.
pub const MAX_NAME: usize = 255;

/// What a LOOKUP in the root is answered.
fn root_reply(head: &ServerBase, files: &[DataFile], name: &[u8]) -> StoredReply
    requires { IsServer head.now files.now }
    ensures reply { reply_with result [] ≡ lookup_reply (server_of head.now files.now) Root name.now }
    ensures fits { Fits nfs3_results (reply_value (reply_with result [])) }
{
    let directory = Some(root_attributes(head.root));
    if name.len() > MAX_NAME {
        return StoredReply::LookupRefused {
            status: Stat3::NameTooLong,
            directory,
        };
    }
    let Some(index) = head.names.index_of(name) else {
        return StoredReply::LookupRefused {
            status: Stat3::NoEnt,
            directory,
        };
    };
    StoredReply::LookupDone {
        file: handle_of(index),
        attributes: attributes_at(files, index),
        directory,
    }
}

/// What a LOOKUP is answered.
pub fn lookup_reply(head: &ServerBase, files: &[DataFile], args: &LookupArgs<'_>) -> StoredReply
    requires { IsServer head.now files.now }
    ensures reply { reply_with result [] ≡ lookup_reply (server_of head.now files.now) (object_of files.now args.now.directory.now) args.now.name.now }
    ensures fits { Fits nfs3_results (reply_value (reply_with result [])) }
{
    match place_of(files, args.directory) {
        Place::Missing(status) => StoredReply::LookupRefused {
            status,
            directory: None,
        },
        Place::File(index) => StoredReply::LookupRefused {
            status: Stat3::NotDir,
            directory: Some(attributes_of_file(files, index)),
        },
        Place::Root => root_reply(head, files, args.name),
    }
}
