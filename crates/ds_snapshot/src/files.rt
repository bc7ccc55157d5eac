//! The files of a server by their places.

ghost use Rattle.std.specs.Prelude.{◌≡◌, ◌+◌, ◌<◌, ◌^◌, length, IfSome, option_copied, slice_get};

use data_file::DataFile;
use ds_files::DataServer;

/// The data file at an index, where there is one.
pub fn file_at(server: &DataServer, index: usize) -> Option<&DataFile>
    ensures exact { option_copied result ≡ slice_get server.now.files index }
    ensures index { IfSome result (λ _. index + 2 < 2 ^ 64) }
    ensures within { IfSome result (λ _. index < length server.now.files) }
{
    if index >= server.file_count() {
        return None;
    }
    server.file(index as u64 + 2)
}
