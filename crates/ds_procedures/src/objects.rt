//! What handles name (RFC 1813, section 2.6).

ghost use Rattle.std.specs.Prelude.{◌≡◌, ◌<◌, ◌+◌, ◌^◌, Some, length};
ghost use Rattle.cluster_model.specs.Server.{named};
ghost use Rattle.ds_procedures.specs.Objects.{object_by, object_of, attributes_at, handle_of};
ghost use Rattle.ds_procedures.specs.ServerBases.{IsAt, IsWithin, MissingRefuses, AreOf, AreOfFile, AttributesFit};

use crate::attributes::{file_attributes, root_attributes};
use crate::object::Place;
use crate::server_base::ServerBase;
use data_file::DataFile;
use nfs3_wire::{Fattr3, Stat3};

/// The root's fileid; the files have the numbers behind it.
pub const ROOT: u64 = 1;

/// Where the object with this fileid is.
fn named(files: &[DataFile], fileid: u64) -> Place
    ensures at { IsAt files.now result (object_by (named files.now fileid)) }
    ensures status { MissingRefuses result }
    ensures within { IsWithin files.now result }
{
    if fileid == ROOT {
        return Place::Root;
    }
    if fileid < ROOT || fileid - 2 >= files.len() as u64 {
        return Place::Missing(Stat3::Stale);
    }
    Place::File((fileid - 2) as usize)
}

/// Where the object that a handle names is.
pub fn place_of(files: &[DataFile], handle: &[u8]) -> Place
    ensures at { IsAt files.now result (object_of files.now handle.now) }
    ensures status { MissingRefuses result }
    ensures within { IsWithin files.now result }
{
    match handle {
        [a, b, c, d, e, f, g, h] => named(
            files,
            u64::from_be_bytes([*a, *b, *c, *d, *e, *f, *g, *h]),
        ),
        _ => Place::Missing(Stat3::BadHandle),
    }
}

/// The handle of the file at an index: its fileid as eight bytes.
#[tactic(auto, unfolding(ff_xdr::specs::Form::long))]
pub fn handle_of(index: usize) -> [u8; 8]
    requires { index + 2 < 2 ^ 64 }
    ensures { result ≡ handle_of index }
{
    (index as u64 + 2).to_be_bytes()
}

/// The attributes of the file at an index.
pub fn attributes_of_file(files: &[DataFile], index: usize) -> Fattr3
    requires { index < length files.now }
    ensures exact { AreOfFile files.now index result }
    ensures some { Some result ≡ attributes_at files.now index }
{
    file_attributes(index as u64 + 2, &files[index])
}

/// The same, where there may be none.
pub fn attributes_at(files: &[DataFile], index: usize) -> Option<Fattr3>
    ensures exact { result ≡ attributes_at files.now index }
    ensures fits { AttributesFit result }
{
    if index >= files.len() {
        return None;
    }
    Some(attributes_of_file(files, index))
}

/// The attributes of the object at a place: none where it names nothing.
pub fn attributes_of(head: &ServerBase, files: &[DataFile], place: Place) -> Option<Fattr3>
    requires { IsWithin files.now place }
    ensures are { AreOf head.now files.now place result }
    ensures fits { AttributesFit result }
{
    match place {
        Place::Missing(_) => None,
        Place::Root => Some(root_attributes(head.root)),
        Place::File(index) => Some(attributes_of_file(files, index)),
    }
}
