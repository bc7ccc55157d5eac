//! A run of a script, line by line.

ghost use Rattle.std.specs.Prelude.{◌≡◌, ◌≢◌, ◌<◌, ℕ, List, false, None, Some, Ok, IfOk};
ghost use Rattle.line_runs.specs.declared.end.LineStep.TheVariants as step;
ghost use Rattle.world_journal.specs.Journal.{IsJournalInRange};
ghost use Rattle.ff_replay.specs.Script.{journal_so_far};
ghost use Rattle.ff_replay.specs.Player.{PlayerPlays, with_trace, played, flowing, is_unfinished, room_of};

use crate::line::{Line, parse_line};
use crate::world::World;
use crate::writing::print_closing;
use cluster_model::Entry;
use ff_xdr::{NoMemory, Out};
use journal_print::Mode;
use line_runs::{LineStep, LineTask};
use std::alloc::Global;
use std::marker::Model;

/// The world that a script has made so far, and whether a flow is under way.
#[derive(Drop)]
pub struct Player {
    alloc: Global,
    mode: Mode,
    stage: Option<World>,
    flows: bool,
}

impl Model for Player {
    ghost use Rattle.ff_replay.specs.Player.{PlayerValue, player_of};

    ghost Value = { PlayerValue };

    ghost view = { λ p. player_of p.mode p.stage p.flows };
}

impl Player {
    /// Before the first line; takes no memory.
    pub fn new(alloc: Global, mode: Mode) -> Player
        ensures { result ≡ record { mode = mode; stage = None; spent = None; flows = false } }
    {
        Player {
            alloc,
            mode,
            stage: None,
            flows: false,
        }
    }

    /// The journal so far; before the setup it has no entry.
    pub fn journal(&self) -> &[Entry]
        ensures is { result.now ≡ journal_so_far self.now.stage }
        ensures range { IsJournalInRange (journal_so_far self.now.stage) }
    {
        match &self.stage {
            None => &[],
            Some(stage) => stage.journal(),
        }
    }

    /// Says that the journal is in range, by the types of its entries; does nothing.
    fn is_in_range(&self)
        ensures { IsJournalInRange (journal_so_far self.now.stage) }
    {
        self.journal();
    }

    /// Plays a line before the setup.
    fn set_up(&mut self, line: &[u8]) -> Result<LineStep, NoMemory>
        ensures does { self.old.spent ≡ None → self.old.stage ≡ None → (trace : List ℕ) → PlayerPlays self.old.mode (with_trace self.old trace) (played None line.now) result (with_trace self.new trace) }
        ensures flows { self.new.flows ≡ self.old.flows }
        ensures mode { self.new.mode ≡ self.old.mode }
        ensures whole { result ≢ Ok step.More }
    {
        let setup = match parse_line(None, line) {
            Some(Line::Setup(setup)) => setup,
            Some(Line::Nothing) => return Ok(LineStep::Done),
            Some(Line::Event(_)) => return Ok(LineStep::Outside),
            None => return Ok(LineStep::Outside),
        };
        self.stage = Some(World::new(self.alloc, setup)?);
        Ok(LineStep::Done)
    }

    /// Plays a line, and prints the entries that it adds to the journal; of a flow those of the first
    /// delivery. At an error a beginning of the entries is printed, and the player is not to be used
    /// again. A world that is spent stays so.
    pub fn play_line(&mut self, line: &[u8], text: &mut Out) -> Result<LineStep, NoMemory>
        ensures does { self.old.spent ≡ None → PlayerPlays self.old.mode (with_trace self.old text.old) (played self.old.stage line.now) result (with_trace self.new text.new) }
        ensures mode { self.new.mode ≡ self.old.mode }
        ensures flows { self.old.flows ≡ false → IfOk result (λ done. self.new.flows ≡ is_unfinished done) }
        ensures spent { self.old.spent ≢ None → self.new.stage ≡ self.old.stage }
    {
        let mode = self.mode;
        let Some(stage) = &mut self.stage else {
            return self.set_up(line);
        };
        let done = stage.play_line(mode, line, text)?;
        self.flows = done == LineStep::More;
        Ok(done)
    }

    /// Goes on with a flow, by the next delivery.
    pub fn flow_on(&mut self, text: &mut Out) -> Result<LineStep, NoMemory>
        ensures does { self.old.spent ≡ None → PlayerPlays self.old.mode (with_trace self.old text.old) (flowing self.old.stage) result (with_trace self.new text.new) }
        ensures mode { self.new.mode ≡ self.old.mode }
        ensures flows { IfOk result (λ done. self.new.flows ≡ is_unfinished done) }
        ensures falls { result ≡ Ok step.More → room_of self.new.stage < room_of self.old.stage }
    {
        let mode = self.mode;
        self.flows = false;
        let Some(stage) = &mut self.stage else {
            return Ok(LineStep::Done);
        };
        let done = stage.go_on(mode, text)?;
        self.flows = done == LineStep::More;
        Ok(done)
    }
}

impl LineTask for Player {
    ghost use Rattle.std.specs.Prelude.{List};
    ghost use Rattle.cluster_model.specs.declared.entry.Entry.{Entry};
    ghost use Rattle.ff_replay.specs.Script.{script_budget, script_task};
    ghost use Rattle.ff_replay.specs.Player.{IsBetween, IsWithinFlow, LeadsPlayer, room_of};
    ghost use Rattle.ff_replay.specs.Ending.{at_end_of};

    ghost BUDGET = { script_budget };

    ghost State = { List Entry };

    ghost value = { λ player. script_task player.mode player.flows player.stage };

    ghost fresh = { λ player. IsBetween player };

    ghost midway = { λ player. IsWithinFlow player };

    ghost leads = { λ start now text. LeadsPlayer start now text };

    ghost steps = { λ player. room_of player.stage };

    const BUDGET: usize = 67_108_864;

    fn count(&self) -> u64 {
        match &self.stage {
            None => 0,
            Some(stage) => stage.count(),
        }
    }

    fn play(&mut self, line: &[u8], text: &mut Out) -> Result<LineStep, NoMemory> {
        let done = self.play_line(line, text);
        self.is_in_range();
        done
    }

    fn go_on(&mut self, text: &mut Out) -> Result<LineStep, NoMemory> {
        let done = self.flow_on(text);
        self.is_in_range();
        done
    }

    fn close(&mut self, text: &mut Out) -> Result<(), NoMemory> {
        print_closing(self.mode, self.journal(), text)
    }

    ghost ends = { λ player number fresh. at_end_of player.mode player.flows player.stage number fresh.1 };
}
