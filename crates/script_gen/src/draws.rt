//! Numbers that are drawn, one after the other.

ghost use Rattle.std.specs.Prelude.{◌≡◌, ◌+◌, ◌<◌};
ghost use Rattle.script_gen.specs.Generated.{next_state, draw};

use std::marker::Model;

/// What a state is multiplied by for the next one.
const FACTOR: u64 = 6_364_136_223_846_793_005;

/// What is added then.
const SUMMAND: u64 = 1_442_695_040_888_963_407;

/// Numbers that are drawn, one after the other. Clauses see the state that the next draw begins at.
#[derive(Drop)]
pub struct Draws {
    state: u64,
}

impl Model for Draws {
    ghost use Rattle.std.specs.Prelude.{ℕ};

    ghost Value = { ℕ };

    ghost view = { λ draws. draws.state };
}

impl Draws {
    /// The draws of a number.
    pub fn new(seed: u64) -> Draws
        ensures { result ≡ seed }
    {
        Draws { state: seed }
    }

    /// The next number, from 0 to `below - 1`.
    pub fn draw(&mut self, below: u32) -> u32
        requires { 0 < below }
        ensures drawn { result ≡ draw 1 below self.old }
        ensures within { result < below }
        ensures on { self.new ≡ next_state self.old }
    {
        self.state = self.state.wrapping_mul(FACTOR).wrapping_add(SUMMAND);
        ((self.state >> 33) % u64::from(below)) as u32
    }

    /// The next number, from 1 to `count`.
    pub fn number(&mut self, count: u32) -> u32
        requires { 0 < count }
        ensures drawn { result ≡ 1 + draw 1 count self.old }
        ensures on { self.new ≡ next_state self.old }
    {
        1 + self.draw(count)
    }
}
