//! The server that a log says.

ghost use Rattle.std.specs.Prelude.{◌≡◌, ◌<◌, Some, [], IfOk, OnErr};
ghost use Rattle.cluster_model.specs.Server.{restart_of, max_boot};
ghost use Rattle.ds_log.specs.Bodies.{body_in};
ghost use Rattle.ds_log.specs.Durable.{unbooted};
ghost use Rattle.ds_log.specs.Applies.{Applies, NeedsMemory};
ghost use Rattle.ds_log.specs.Steady.{IsSteady};

use crate::applying::apply_body;
use crate::body::LogBody;
use cluster_model::{Tick, Times};
use data_file::DataFile;
use ds_files::DataServer;
use ds_procedures::{Names, ServerBase};
use ff_xdr::{NoMemory, Wire};
use std::alloc::Global;
use std::marker::Model;

/// What a log said so far. Clauses see the server that lasts.
#[derive(Drop)]
pub struct Replayed {
    alloc: Global,
    head: ServerBase,
    files: Vec<DataFile>,
}

impl Model for Replayed {
    ghost use Rattle.cluster_model.specs.Server.{ServerState};
    ghost use Rattle.ds_procedures.specs.ServerBases.{server_of};
    ghost use Rattle.ds_log.specs.Lasting.{IsLasting};

    ghost Value = { ServerState };

    ghost view = { λ r. server_of r.head r.files.items };

    ghost invariant = { λ r. IsLasting r.head r.files.items };
}

impl Replayed {
    /// Nothing yet, for the server with a number. Takes no memory.
    pub fn new(alloc: Global, number: u32) -> Replayed
        ensures { result ≡ unbooted number }
    {
        let first = Tick { boot: 1, count: 0 };
        let root = Times {
            atime: first,
            mtime: first,
            ctime: first,
        };
        let head = ServerBase {
            number,
            clock: Tick { boot: 0, count: 0 },
            root,
            names: Names::new(alloc),
            total: 0,
        };
        Replayed {
            alloc,
            head,
            files: Vec::new(alloc),
        }
    }

    /// The next body: whether it is in its form and fits what was said so far. Where it does not, nothing has changed.
    ///
    /// # Errors
    ///
    /// `NoMemory` where memory is wanted, for a new file or for bytes. A part of the body may be done then, and this is not
    /// to be used again.
    pub fn apply(&mut self, body: &[u8]) -> Result<bool, NoMemory>
        ensures applied { IfOk result (λ fits. Applies self.old body.now fits self.new) }
        ensures wanted { OnErr result (NeedsMemory (body_in body.now)) }
    {
        let Ok(body) = LogBody::from_bytes(body) else {
            return Ok(false);
        };
        apply_body(self.alloc, &mut self.head, &mut self.files, &body)
    }

    /// The last boot number, and 0 before the first boot.
    pub fn boot(&self) -> u32
        ensures { result ≡ self.now.clock.boot }
    {
        self.head.clock.boot
    }

    /// The server in the next boot: it starts with what lasts. Takes no memory.
    pub fn start(self) -> DataServer
        requires { self.clock.boot < max_boot }
        ensures started { restart_of self [] ≡ Some result }
        ensures steady { IsSteady result }
    {
        let Replayed {
            alloc,
            mut head,
            files,
        } = self;
        head.clock = Tick {
            boot: head.clock.boot + 1,
            count: 0,
        };
        DataServer::of_parts(alloc, head, files)
    }
}
