//! The world of a script.

ghost use Rattle.std.specs.Prelude.{◌≡◌, ◌≢◌, ◌<◌, ◌-◌, false, IfOk, None, Some, Ok, length, option_map, option_copied};
ghost use Rattle.line_runs.specs.declared.end.LineStep.TheVariants as step;
ghost use Rattle.world_journal.specs.Journal.{IsJournalInRange, max_entries};
ghost use Rattle.ff_script.specs.Line.{event_value};
ghost use Rattle.cluster_script.specs.declared.sizes.ClusterSizes.{ClusterSizes};
ghost use Rattle.cluster_script.specs.ClusterLines.{cluster_event};
ghost use Rattle.world_rule.specs.ClusterWorlds.{cluster_step};
ghost use Rattle.cluster_world.specs.WorldSteps.{IsOfScript};
ghost use Rattle.ff_world.specs.World.{world_step};
ghost use Rattle.ff_replay.specs.Script.{setup_of_world, entries_in, journal_in, world_of};
ghost use Rattle.ff_replay.specs.Player.{PlayerPlays, IsSetup, IsEventIn, script_world, spent_by, player_at, at_bare, at_cluster, event_said, mds_in, server_in, client_in, is_flow, flowed, flowed_in, bare_goes, cluster_goes, cluster_played, event_played, played};

use crate::line::{Event, Line, is_flow, parse_line};
use crate::setup::Setup;
use crate::writing::print_from;
use cluster_model::Entry;
use cluster_script::{ClusterEvent, ClusterSizes};
use cluster_world::ClusterWorld;
use ds_files::DataServer;
use ff_script::BareEvent;
use ff_world::BareWorld;
use ff_xdr::{NoMemory, Out};
use journal_print::Mode;
use line_runs::LineStep;
use mds_core::Mds;
use mirror_client::Client;
use std::alloc::Global;
use world_journal::WorldFault;

/// The world of a script: its machines, and the journal of what happened to them. It is spent once an event did not happen.
#[derive(Drop)]
pub enum World {
    /// One data server.
    Bare(BareWorld),
    /// A cluster of these sizes.
    Cluster(ClusterSizes, ClusterWorld),
}

/// Lets an event happen in the world of one data server, and prints the entries that it adds to the
/// journal.
fn happen(
    mode: Mode,
    world: &mut BareWorld,
    event: &BareEvent<'_>,
    text: &mut Out,
) -> Result<LineStep, NoMemory>
    ensures does { world.old.spent ≡ None → PlayerPlays mode (at_bare world.old text.old) (bare_goes (world_step world.old.world (event_value event.now))) result (at_bare world.new text.new) }
    ensures spent { world.old.spent ≢ None → world.new ≡ world.old }
{
    let printed = world.journal().len();
    match world.step(event) {
        Ok(()) => {
            print_from(mode, world.journal(), printed, text)?;
            Ok(LineStep::Done)
        }
        Err(WorldFault::Limit { entries }) => Ok(LineStep::Limited(entries)),
        Err(WorldFault::NoMemory) => Err(NoMemory),
    }
}

/// Lets an event that is no flow happen in a cluster, and prints the entries that it adds to the
/// journal.
fn act(
    mode: Mode,
    world: &mut ClusterWorld,
    event: &ClusterEvent<'_>,
    text: &mut Out,
) -> Result<LineStep, NoMemory>
    requires { IsOfScript (cluster_event event.now) }
    ensures does { world.old.spent ≡ None → (sizes : ClusterSizes) → PlayerPlays mode (at_cluster sizes world.old text.old) (cluster_goes sizes false world.old.world (cluster_step world.old.world (cluster_event event.now))) result (at_cluster sizes world.new text.new) }
    ensures spent { world.old.spent ≢ None → world.new ≡ world.old }
{
    let printed = world.journal().len();
    match world.step(event) {
        Ok(()) => {
            print_from(mode, world.journal(), printed, text)?;
            Ok(LineStep::Done)
        }
        Err(WorldFault::Limit { entries }) => Ok(LineStep::Limited(entries)),
        Err(WorldFault::NoMemory) => Err(NoMemory),
    }
}

/// Delivers the next packet of a flow, and prints the entries that this adds to the journal.
fn flow(mode: Mode, world: &mut ClusterWorld, text: &mut Out) -> Result<LineStep, NoMemory>
    ensures does { world.old.spent ≡ None → (sizes : ClusterSizes) → PlayerPlays mode (at_cluster sizes world.old text.old) (flowed sizes world.old.world) result (at_cluster sizes world.new text.new) }
    ensures spent { world.old.spent ≢ None → world.new ≡ world.old }
    ensures falls { result ≡ Ok step.More → max_entries - length world.new.world.journal < max_entries - length world.old.world.journal }
{
    let printed = world.journal().len();
    match world.deliver_next() {
        Ok(true) => {
            print_from(mode, world.journal(), printed, text)?;
            Ok(LineStep::More)
        }
        Ok(false) => Ok(LineStep::Done),
        Err(WorldFault::Limit { entries }) => Ok(LineStep::Limited(entries)),
        Err(WorldFault::NoMemory) => Err(NoMemory),
    }
}

/// Plays an event of a cluster.
fn act_or_flow(
    mode: Mode,
    world: &mut ClusterWorld,
    event: &ClusterEvent<'_>,
    text: &mut Out,
) -> Result<LineStep, NoMemory>
    requires { IsOfScript (cluster_event event.now) }
    ensures does { world.old.spent ≡ None → (sizes : ClusterSizes) → PlayerPlays mode (at_cluster sizes world.old text.old) (cluster_played (is_flow (cluster_event event.now)) sizes world.old.world (cluster_event event.now)) result (at_cluster sizes world.new text.new) }
    ensures spent { world.old.spent ≢ None → world.new ≡ world.old }
{
    if is_flow(event) {
        return flow(mode, world, text);
    }
    act(mode, world, event, text)
}

impl World {
    /// The world of a setup, before any event.
    pub fn new(alloc: Global, setup: Setup) -> Result<World, NoMemory>
        requires { IsSetup setup }
        ensures world { IfOk result (λ world. script_world world ≡ world_of setup) }
        ensures fresh { IfOk result (λ world. spent_by world ≡ None) }
    {
        match setup {
            Setup::Bare => Ok(World::Bare(BareWorld::new(alloc)?)),
            Setup::Cluster(sizes) => Ok(World::Cluster(sizes, ClusterWorld::new(alloc, sizes)?)),
        }
    }

    /// Which machines it has.
    fn setup(&self) -> Setup
        ensures { result ≡ setup_of_world (script_world self.now) }
    {
        match self {
            World::Bare(_) => Setup::Bare,
            World::Cluster(sizes, _) => Setup::Cluster(*sizes),
        }
    }

    /// The metadata server, where it has one.
    pub fn mds(&self) -> Option<&Mds>
        ensures { option_map (λ m. m.now.mds) result ≡ mds_in (script_world self.now) }
    {
        match self {
            World::Bare(_) => None,
            World::Cluster(_, world) => Some(world.mds()),
        }
    }

    /// The data server of a number, where it has one.
    pub fn server(&self, number: u32) -> Option<&DataServer>
        ensures { option_copied result ≡ server_in (script_world self.now) number }
    {
        match self {
            World::Bare(world) => world.server(number),
            World::Cluster(_, world) => world.server(number),
        }
    }

    /// The client of a number, where it has one.
    pub fn client(&self, number: u32) -> Option<&Client>
        ensures { option_map (λ c. c.now.client) result ≡ client_in (script_world self.now) number }
    {
        match self {
            World::Bare(_) => None,
            World::Cluster(_, world) => world.client(number),
        }
    }

    /// The journal so far.
    pub fn journal(&self) -> &[Entry]
        ensures is { result.now ≡ journal_in (script_world self.now) }
        ensures range { IsJournalInRange (journal_in (script_world self.now)) }
    {
        match self {
            World::Bare(world) => world.journal(),
            World::Cluster(_, world) => world.journal(),
        }
    }

    /// How many entries the journal has.
    pub fn count(&self) -> u64
        ensures { result ≡ entries_in (script_world self.now) }
    {
        match self {
            World::Bare(world) => world.count(),
            World::Cluster(_, world) => world.count(),
        }
    }

    /// Lets an event happen, and prints the entries that it adds to the journal; of a flow those of the first delivery. A world
    /// that is spent stays so.
    fn play_event(
        &mut self,
        mode: Mode,
        event: &Event<'_>,
        text: &mut Out,
    ) -> Result<LineStep, NoMemory>
        requires { IsEventIn (setup_of_world (script_world self.old)) event.now }
        ensures does { spent_by self.old ≡ None → PlayerPlays mode (player_at self.old text.old) (event_played (script_world self.old) (event_said event.now)) result (player_at self.new text.new) }
        ensures spent { spent_by self.old ≢ None → self.new ≡ self.old }
    {
        match self {
            World::Bare(world) => match event {
                Event::Bare(event) => happen(mode, world, event, text),
                // (no line of this setup is read as one)
                Event::Cluster(_) => Ok(LineStep::Outside),
            },
            World::Cluster(_, world) => match event {
                // (nor here as one of these)
                Event::Bare(_) => Ok(LineStep::Outside),
                Event::Cluster(event) => act_or_flow(mode, world, event, text),
            },
        }
    }

    /// Plays a line behind the setup, and prints the entries that it adds to the journal. A world that is
    /// spent stays so.
    pub fn play_line(
        &mut self,
        mode: Mode,
        line: &[u8],
        text: &mut Out,
    ) -> Result<LineStep, NoMemory>
        ensures does { spent_by self.old ≡ None → PlayerPlays mode (player_at self.old text.old) (played (Some (script_world self.old)) line.now) result (player_at self.new text.new) }
        ensures spent { spent_by self.old ≢ None → self.new ≡ self.old }
    {
        match parse_line(Some(self.setup()), line) {
            Some(Line::Nothing) => Ok(LineStep::Done),
            Some(Line::Event(event)) => self.play_event(mode, &event, text),
            Some(Line::Setup(_)) => Ok(LineStep::Outside),
            None => Ok(LineStep::Outside),
        }
    }

    /// Goes on with a flow, and prints the entries that this adds to the journal. In a world of one data
    /// server there is none.
    pub fn go_on(&mut self, mode: Mode, text: &mut Out) -> Result<LineStep, NoMemory>
        ensures does { spent_by self.old ≡ None → PlayerPlays mode (player_at self.old text.old) (flowed_in (script_world self.old)) result (player_at self.new text.new) }
        ensures falls { result ≡ Ok step.More → max_entries - entries_in (script_world self.new) < max_entries - entries_in (script_world self.old) }
    {
        match self {
            World::Bare(_) => Ok(LineStep::Done),
            World::Cluster(_, world) => flow(mode, world, text),
        }
    }
}
