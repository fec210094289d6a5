//! The numbers that are drawn.

ghost use Rattle.std.specs.Prelude.{◌≡◌, ◌<◌};
ghost use Rattle.spin_gen.specs.Numbers.{state_after, drawn};

use std::marker::Model;

// What the state is multiplied by.
const MULTIPLIER: u64 = 6_364_136_223_846_793_005;

// What is added then.
const INCREMENT: u64 = 1_442_695_040_888_963_407;

// Numbers that follow from a first one. Contracts see the state.
#[derive(Drop)]
pub(crate) struct Draws {
    state: u64,
}

impl Model for Draws {
    ghost use Rattle.std.specs.Prelude.{ℕ};

    ghost Value = { ℕ };

    ghost view = { λ d. d.state };
}

impl Draws {
    // No number is drawn yet.
    pub(crate) fn new(number: u64) -> Draws
        ensures { result ≡ number }
    {
        Draws { state: number }
    }

    // Draws the next number below that one, which isn't 0.
    #[tactic(auto, unfolding(crate::specs::Numbers::next_state, crate::specs::Numbers::answer, crate::specs::Numbers::state_after))]
    pub(crate) fn below(&mut self, range: u64) -> u64
        requires { 0 < range }
        ensures state { self.new ≡ state_after 1 self.old }
        ensures drawn { result ≡ drawn range 0 self.old }
        ensures below { result < range }
    {
        self.state = self.state.wrapping_mul(MULTIPLIER).wrapping_add(INCREMENT);
        (self.state >> 33) % range
    }
}
