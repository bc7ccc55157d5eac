//! A snapshot on the way.

ghost use Rattle.std.specs.Prelude.{◌≡◌, OnErr};
ghost use Rattle.cluster_model.specs.Server.{ServerState};
ghost use Rattle.ds_log.specs.Durable.{durable};
ghost use Rattle.ds_log.specs.Steady.{IsSteady};
ghost use Rattle.ds_snapshot.specs.declared.snapshot.NextBody.TheVariants.{Chunk};
ghost use Rattle.ds_snapshot.specs.Snapshots.{snapshot_of};
ghost use Rattle.ds_snapshot.specs.NextBodies.{bodies_from, files_from, GivesBody, GivesBodyThen};

use crate::chunk::{chunk_count, chunk_held, file_held, spelled};
use crate::files::file_at;
use ds_files::DataServer;
use ds_log::LogBody;
use ff_xdr::NoMemory;
use gate_log::Gated;
use std::alloc::Global;
use std::marker::Model;

/// Which body of a snapshot comes next.
#[derive(Clone, Copy)]
pub enum NextBody {
    /// The boot.
    Boot,
    /// The root's times.
    Root,
    /// The attributes of the file at an index, where there is one.
    File { index: usize },
    /// A chunk of the bytes of the file at an index, where it has one; else the next file.
    Chunk { index: usize, chunk: u64 },
}

/// The body of the file at an index, and which one comes behind it; none where there is no such file.
fn give_file(
    alloc: Global,
    server: &DataServer,
    index: usize,
) -> Result<Option<(Gated, NextBody)>, NoMemory>
    requires { IsSteady server.now }
    ensures { GivesBodyThen (files_from (durable server.now) index) (durable server.now) result }
{
    let Some(file) = file_at(server, index) else {
        return Ok(None);
    };
    let Some(name) = server.name(index) else {
        return Ok(None);
    };
    let gated = file_held(alloc, index as u64 + 2, name, file)?;
    Ok(Some((gated, NextBody::Chunk { index, chunk: 0 })))
}

/// The body of a chunk of the file at an index, or else that of the next file; and which one comes behind it.
fn give_chunk(
    alloc: Global,
    server: &DataServer,
    index: usize,
    chunk: u64,
) -> Result<Option<(Gated, NextBody)>, NoMemory>
    requires { IsSteady server.now }
    ensures { GivesBodyThen (bodies_from (Chunk index chunk) (durable server.now)) (durable server.now) result }
{
    let Some(file) = file_at(server, index) else {
        return Ok(None);
    };
    if chunk >= chunk_count(file.stable_size()) {
        return give_file(alloc, server, index + 1);
    }
    let gated = chunk_held(alloc, index as u64 + 2, file, chunk)?;
    Ok(Some((
        gated,
        NextBody::Chunk {
            index,
            chunk: chunk + 1,
        },
    )))
}

/// The next body, and which one comes behind it; none where none is left.
fn give(
    alloc: Global,
    server: &DataServer,
    next: NextBody,
) -> Result<Option<(Gated, NextBody)>, NoMemory>
    requires { IsSteady server.now }
    ensures { GivesBodyThen (bodies_from next (durable server.now)) (durable server.now) result }
{
    match next {
        NextBody::Boot => {
            let body = LogBody::Boot(server.clock().boot);
            let gated = spelled(alloc, 0, &body)?;
            Ok(Some((gated, NextBody::Root)))
        }
        NextBody::Root => {
            let body = LogBody::Root(server.root());
            let gated = spelled(alloc, 0, &body)?;
            Ok(Some((gated, NextBody::File { index: 0 })))
        }
        NextBody::File { index } => give_file(alloc, server, index),
        NextBody::Chunk { index, chunk } => give_chunk(alloc, server, index, chunk),
    }
}

/// A snapshot of a server on the way: its bodies come one by one. Takes no memory. Clauses see which body comes next.
#[derive(Clone, Copy)]
pub struct Snapshot {
    next: NextBody,
}

impl Model for Snapshot {
    ghost use Rattle.ds_snapshot.specs.declared.snapshot.NextBody.{NextBody};

    ghost Value = { NextBody };

    ghost view = { λ snapshot. snapshot.next };

    ghost inverse = { λ next. record { next = next } };
}

impl Snapshot {
    /// All bodies are still to come.
    pub fn new() -> Snapshot
        ensures { (s : ServerState) → bodies_from result s ≡ snapshot_of s }
    {
        Snapshot {
            next: NextBody::Boot,
        }
    }

    /// The next body; none where all were given. The server is the same at each call, or one of which the same lasts.
    ///
    /// # Errors
    ///
    /// `NoMemory` where memory is wanted for the body, which comes again then.
    pub fn next(&mut self, alloc: Global, server: &DataServer) -> Result<Option<Gated>, NoMemory>
        requires steady { IsSteady server.now }
        ensures next { GivesBody (bodies_from self.old (durable server.now)) result (bodies_from self.new (durable server.now)) }
        ensures err { OnErr result (self.new ≡ self.old) }
    {
        let Some((gated, next)) = give(alloc, server, self.next)? else {
            return Ok(None);
        };
        self.next = next;
        Ok(Some(gated))
    }
}
