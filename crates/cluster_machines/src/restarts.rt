//! Data servers that start again.

ghost use Rattle.std.specs.Prelude.{◌≡◌, OnOk};
ghost use Rattle.world_rule.specs.Machines.{restarts, HasActed};

use crate::machines::Machines;
use crate::numbers::index_of;
use cluster_model::{Entry, Outbox, Pieces};
use ds_files::RestartFault;
use ff_xdr::NoMemory;

impl Machines {
    /// A data server starts again, with these pieces of its pending writes on its disk. At its last boot nothing happens.
    pub fn restart(&mut self, server: u32, pieces: Pieces, out: &mut Outbox) -> Result<(), NoMemory>
        ensures { OnOk result (HasActed (restarts server pieces self.old) out.old self.new out.new) }
    {
        let Some(index) = index_of(server, self.servers.len()) else {
            return Ok(());
        };
        match self.servers[index].restart(pieces.as_slice()) {
            Err(RestartFault::BootsSpent) => return Ok(()),
            Err(RestartFault::NoMemory) => return Err(NoMemory),
            Ok(()) => {}
        }
        out.entries.push(Entry::Restarted { server, pieces })?;
        Ok(())
    }
}
