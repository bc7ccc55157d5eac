//! How many bytes a snapshot has in a log.

ghost use Rattle.std.specs.Prelude.{◌≡◌, ◌+◌, ◌<◌, ◌≤◌, ◌^◌, ◌-◌, [], length, min, IfSome, ℕ};
ghost use Rattle.ff_xdr.specs.Form.{pad_len};
ghost use Rattle.cluster_model.specs.File.{restarted};
ghost use Rattle.ds_log.specs.Durable.{durable};
ghost use Rattle.ds_snapshot.specs.Snapshots.{file_bodies};
ghost use Rattle.ds_snapshot.specs.Sizes.{bodies_size, snapshot_size, CountsFile};

use crate::chunk::chunk_count;
use crate::files::file_at;
use data_file::DataFile;
use ds_files::DataServer;

/// The records of the boot and of the root's times.
const HEAD: u64 = 46;

/// A file's record, without the bytes of its name.
const FILE: u64 = 57;

/// The record of a chunk, without the bytes of the file.
const CHUNK_REST: u64 = 49;

/// So many bytes, and zeros up to a multiple of four.
#[tactic(auto, using(crate::proofs::Sizing::pad_up))]
fn padded_size(count: u64) -> u64
    requires { count < 2 ^ 63 }
    ensures exact { result ≡ count + pad_len count }
    ensures bounded { result ≤ count + 3 }
{
    (count + 3) / 4 * 4
}

/// How many bytes the records of a file's bodies have in a log.
pub fn file_size(name: &[u8], file: &DataFile) -> u64
    ensures { (fileid : ℕ) → result ≡ bodies_size (file_bodies fileid name.now (restarted file.now [])) }
{
    let size = file.stable_size();
    FILE + padded_size(name.len() as u64) + chunk_count(size) * CHUNK_REST + padded_size(size)
}

/// The same of the file at an index, where there is one.
fn size_at(server: &DataServer, index: usize) -> Option<u64>
    ensures counts { CountsFile (durable server.now) index result }
    ensures index { IfSome result (λ _. index + 2 < 2 ^ 64) }
    ensures within { IfSome result (λ _. index < length server.now.files) }
{
    let Some(file) = file_at(server, index) else {
        return None;
    };
    let Some(name) = server.name(index) else {
        return None;
    };
    Some(file_size(name, file))
}

/// How many bytes the records of a snapshot of the server have in a log; the most that there is where they are more. Goes
/// once over all files.
pub fn snapshot_size(server: &DataServer) -> u64
    ensures { result ≡ min (snapshot_size (durable server.now)) (2 ^ 64 - 1) }
{
    let mut size = HEAD;
    let mut index = 0;
    while let Some(more) = size_at(server, index) {
        size = size.saturating_add(more);
        index += 1;
    }
    size
}
