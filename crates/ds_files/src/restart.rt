//! What a restart keeps of the files (RFC 1813, section 3.3.7: what is not stable may be lost).

ghost use Rattle.std.specs.Prelude.{◌≡◌, ◌<◌, ◌≤◌, ◌+◌, ◌^◌, [], length, map, IfOk, OnOk, OnErr, IsTrue};
ghost use Rattle.cluster_model.specs.Server.{total_size, max_boot, server_restarted};
ghost use Rattle.ds_procedures.specs.ServerBases.{IsServer, server_of};
ghost use Rattle.ds_files.specs.Kept.{AreBounded, AreKept, KeepsPiece, IsOf, all_crashed};

use cluster_model::{Piece, Tick};
use data_file::{DataFile, Kept};
use ds_procedures::ServerBase;
use std::alloc::{AllocError, Global};

/// The fileid of the first file.
const FIRST: u64 = 2;

/// The index of the file that a piece is of, where there is one.
fn index_of_piece(files: &[DataFile], piece: &Piece) -> Option<usize>
    ensures { IsOf files.now piece.now result }
{
    if piece.fileid < FIRST || piece.fileid - FIRST >= files.len() as u64 {
        return None;
    }
    Some((piece.fileid - FIRST) as usize)
}

/// Nothing yet for each file.
fn none_kept(alloc: Global, files: &[DataFile]) -> Result<Vec<Option<Kept>>, AllocError>
    ensures bounded { IfOk result (λ kept. AreBounded files.now kept.items) }
    ensures kept { IfOk result (λ kept. AreKept files.now [] kept.items) }
{
    let mut kept = Vec::new(alloc);
    for _ in files {
        kept.push(None)?;
    }
    Ok(kept)
}

/// Keeps one piece more.
fn keep_piece(
    files: &[DataFile],
    kept: &mut Vec<Option<Kept>>,
    piece: &Piece,
) -> Result<(), AllocError>
    requires { AreBounded files.now kept.old.items }
    ensures { OnOk result (KeepsPiece files.now piece.now kept.old.items kept.new.items) }
{
    let Some(index) = index_of_piece(files, piece) else {
        return Ok(());
    };
    let before = kept[index].take();
    kept[index] = files[index].keep(piece, before)?;
    Ok(())
}

/// What each file's disk has, once the pieces have reached it in their order: None is what it has
/// already.
fn keep_pieces(
    alloc: Global,
    files: &[DataFile],
    pieces: &[Piece],
) -> Result<Vec<Option<Kept>>, AllocError>
    ensures bounded { IfOk result (λ kept. AreBounded files.now kept.items) }
    ensures kept { IfOk result (λ kept. AreKept files.now pieces.now kept.items) }
{
    let mut kept = none_kept(alloc, files)?;
    for piece in pieces {
        keep_piece(files, &mut kept, piece)?;
    }
    Ok(kept)
}

/// Starts each file again with what was kept for it, from the last to the first. Takes no memory.
fn restart_files(files: &mut [DataFile], mut kept: Vec<Option<Kept>>)
    requires { AreBounded files.old kept.items }
    ensures { files.new ≡ all_crashed files.old kept.items }
{
    while let Some(bytes) = kept.pop() {
        let index = kept.len();
        files[index].restart(bytes);
    }
}

/// How many bytes the files show together.
fn total_size(files: &[DataFile]) -> u64
    requires { total_size files.now < 2 ^ 64 }
    ensures { result ≡ total_size files.now }
{
    let mut total = 0;
    for file in files {
        total += file.size();
    }
    total
}

/// Starts a server again, in the next boot. At an error nothing has changed.
pub fn restart_server(
    alloc: Global,
    head: &mut ServerBase,
    files: &mut [DataFile],
    pieces: &[Piece],
) -> Result<(), AllocError>
    requires server { IsServer head.old files.old }
    requires boot { head.old.clock.boot < max_boot }
    ensures ok { OnOk result (server_of head.new files.new ≡ server_restarted (server_of head.old files.old) pieces.now) }
    ensures keeps { IsServer head.new files.new }
    ensures err { OnErr result ((head.new ≡ head.old) × (files.new ≡ files.old)) }
{
    let kept = keep_pieces(alloc, files, pieces)?;
    restart_files(files, kept);
    head.total = total_size(files);
    head.clock = Tick {
        boot: head.clock.boot + 1,
        count: 0,
    };
    Ok(())
}
