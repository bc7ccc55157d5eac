//! Nodes that run by the configuration in a source's first line.

ghost use Rattle.std.specs.Prelude.{◌≡◌, ◌≤◌, ℕ, List, [], Option, length};
ghost use Rattle.command_words.specs.Commands.{CommandValue};
ghost use Rattle.line_runs.specs.Lines.{all_left};
ghost use Rattle.node_config.specs.Configs.{IsInRange, config_value};
ghost use Rattle.user_nodes.specs.Puts.{source_faults};
ghost use Rattle.store_disk.specs.Disks.{both_faults};
ghost use Rattle.ff_node.specs.Serve.{beside, disk_faults, link_faults, sink_faults};
ghost use Rattle.ff_run.specs.Node.{Draws, FindsConfig, FirstFaults, HoldsRest, ReadsFirst, RunsNode, ServedReads, ServesTask, IsShortName, KeepsSource, observed, is_of_server, left_behind, served_disk, served_faults, served_writes, task_command};

use ds_node::serve_ds;
use ff_node::{Config, ConfigFault, MAX_LINE, NodeEnd, read_config};
use line_runs::{Ended, LineBuffer, RunEnd};
use mds_node::serve_mds;
use node_link::{Clock, Link};
use rpc_record::{Failed, Sink, Source};
use std::alloc::Global;
use store_disk::Disk;
use user_nodes::{run_get, run_put};

/// What a node is to do.
#[derive(Clone, Copy, Debug, PartialEq, Eq)]
pub enum Task<'a> {
    /// Serve as a data server.
    Ds,
    /// Serve as the metadata server.
    Mds,
    /// Put the bytes behind the configuration into the file of this name.
    Put(&'a str),
    /// Get the file of this name.
    Get(&'a str),
}

impl Task<'_> {
    /// The node is a data server.
    fn is_of_server(self) -> bool
        ensures { result ≡ is_of_server (task_command self.entry) }
    {
        matches!(self, Task::Ds)
    }
}

/// The configuration of a node for a task in a line. The own number of a data server is that of one of the servers.
fn config_in(alloc: Global, task: Task<'_>, line: &[u8]) -> Result<Config, RunEnd>
    ensures { FindsConfig (task_command task.entry) line.now result }
{
    let config = match read_config(alloc, line) {
        Ok(config) => config,
        Err(ConfigFault::Bad) => return Err(RunEnd::BadLine(1)),
        Err(ConfigFault::NoMemory) => return Err(RunEnd::NoMemory),
    };
    if config.own as usize <= config.servers.len() {
        return Ok(config);
    }
    if task.is_of_server() {
        return Err(RunEnd::BadLine(1));
    }
    Ok(config)
}

/// The configuration in the first line of a source. The buffer, which is empty, holds bytes behind it then.
fn read_first<S: Source>(
    alloc: Global,
    task: Task<'_>,
    buffer: &mut LineBuffer,
    source: &mut S,
) -> Result<Config, RunEnd>
    requires { buffer.old ≡ [] }
    ensures told { ReadsFirst (task_command task.entry) (S.left source.old) result }
    ensures drawn { Draws (S.left source.old) result (S.left source.new) }
    ensures rest { HoldsRest (S.left source.old) result buffer.new (S.left source.new) }
    ensures faults { FirstFaults result (S.faults source.old) (S.faults source.new) }
{
    let mut line = Vec::new(alloc);
    match buffer.read_line(source, MAX_LINE + 1, &mut line) {
        Err(Failed::Fault) => Err(RunEnd::ReadFault),
        Err(Failed::NoMemory) => Err(RunEnd::NoMemory),
        Ok(Ended::PastBudget) => Err(RunEnd::BadLine(1)),
        Ok(Ended::Newline) => config_in(alloc, task, &line),
        Ok(Ended::End) => config_in(alloc, task, &line),
    }
}

/// Runs a node for a task, by its configuration. `buffer` holds the first bytes behind the configuration.
fn run_node<S: Source, K: Sink, D: Disk, L: Link, C: Clock>(
    alloc: Global,
    task: Task<'_>,
    config: &Config,
    buffer: &mut LineBuffer,
    source: &mut S,
    sink: &mut K,
    disk: &mut D,
    spare: &mut D,
    link: &mut L,
    clock: &mut C,
) -> NodeEnd
    requires short { IsShortName task }
    requires ranged { IsInRange (config_value config.now) }
    ensures told { (before : Option (List ℕ)) → all_left buffer.old (S.left source.old) ≡ left_behind before → RunsNode (task_command task.entry) config.now (observed before (D.told disk.old) (D.told spare.old) (L.opened link.old) (beside (L.coming link.old) (L.sent link.old) (C.coming clock.old) (C.moment clock.old) (K.held sink.old))) result (observed (S.left source.new) (D.told disk.new) (D.told spare.new) (L.opened link.new) (beside (L.coming link.new) (L.sent link.new) (C.coming clock.new) (C.moment clock.new) (K.held sink.new))) }
    ensures drawn { KeepsSource (task_command task.entry) (S.left source.old) (S.left source.new) }
    ensures reads { S.faults source.new ≡ source_faults result (S.faults source.old) }
    ensures writes { K.faults sink.new ≡ sink_faults result (K.faults sink.old) }
    ensures faults { L.faults link.new ≡ link_faults result (L.faults link.old) }
    ensures keeps { both_faults (D.faults disk.new) (D.faults spare.new) ≡ disk_faults result (both_faults (D.faults disk.old) (D.faults spare.old)) }
{
    match task {
        Task::Ds => serve_ds(alloc, config, disk, spare, link),
        Task::Mds => serve_mds(alloc, config, link, clock),
        Task::Put(name) => run_put(alloc, config, name, buffer, source, link, clock),
        Task::Get(name) => run_get(alloc, config, name, link, clock, sink),
    }
}

/// Runs a node for a task, by the configuration in the first line of `source`, for as many arrivals as it says at most.
/// `put` reads the bytes behind that line, and `get` writes to `sink`. An error is why no node ran:
/// `RunEnd::BadLine(1)` is a line that configures none, and the others are the source's fault and want of memory.
pub fn serve<S: Source, K: Sink, D: Disk, L: Link, C: Clock>(
    alloc: Global,
    task: Task<'_>,
    source: &mut S,
    sink: &mut K,
    disk: &mut D,
    spare: &mut D,
    link: &mut L,
    clock: &mut C,
) -> Result<NodeEnd, RunEnd>
    requires { IsShortName task }
    ensures told { ServesTask (task_command task.entry) (observed (S.left source.old) (D.told disk.old) (D.told spare.old) (L.opened link.old) (beside (L.coming link.old) (L.sent link.old) (C.coming clock.old) (C.moment clock.old) (K.held sink.old))) result (observed (S.left source.new) (D.told disk.new) (D.told spare.new) (L.opened link.new) (beside (L.coming link.new) (L.sent link.new) (C.coming clock.new) (C.moment clock.new) (K.held sink.new))) }
    ensures reads { ServedReads result (S.faults source.old) (S.faults source.new) }
    ensures writes { K.faults sink.new ≡ served_writes result (K.faults sink.old) }
    ensures faults { L.faults link.new ≡ served_faults result (L.faults link.old) }
    ensures keeps { both_faults (D.faults disk.new) (D.faults spare.new) ≡ served_disk result (both_faults (D.faults disk.old) (D.faults spare.old)) }
{
    let Ok(mut buffer) = LineBuffer::new(alloc) else {
        return Err(RunEnd::NoMemory);
    };
    let config = read_first(alloc, task, &mut buffer, source)?;
    Ok(run_node(
        alloc,
        task,
        &config,
        &mut buffer,
        source,
        sink,
        disk,
        spare,
        link,
        clock,
    ))
}
