//! Numbers that follow from a first one and look as if they were drawn by lot.
//!
//! The generator is linear congruential, modulo 2^64, with Knuth's multiplier and Knuth's addend for it (The Art of Computer
//! Programming, volume 2, and MMIX). The low bits of such a generator repeat soon, so a draw leaves out the lowest 33. That the
//! same first number gives the same draws, everywhere and always, is what this project takes it for.
#![tactic(auto)]

ghost use Rattle.std.specs.Prelude.{◌≡◌, ◌≤◌, ◌<◌};
ghost use Rattle.number_draws.specs.Draws.{drawn_below, next_state};

use std::marker::Model;

/// The multiplier of the generator.
const MULTIPLIER: u64 = 6_364_136_223_846_793_005;

/// The addend of the generator.
const ADDEND: u64 = 1_442_695_040_888_963_407;

/// A generator of numbers. A contract sees it as its state, a number of 64 bits.
#[derive(Debug, Drop)]
pub struct Generator {
    state: u64,
}

impl Model for Generator {
    ghost use Rattle.std.specs.Prelude.{ℕ};

    ghost Value = { ℕ };

    ghost view = { λ generator. generator.state };
}

impl Generator {
    /// The generator whose state is this number.
    pub fn new(number: u64) -> Generator
        ensures { result ≡ number }
    {
        Generator { state: number }
    }

    /// Draws a number below `k`: the new state, shifted right by 33 bits, modulo `k`.
    pub fn below(&mut self, k: usize) -> usize
        requires { 1 ≤ k }
        ensures drawn { result ≡ drawn_below k self.old }
        ensures state { self.new ≡ next_state self.old }
        ensures below { result < k }
    {
        self.state = self.state.wrapping_mul(MULTIPLIER).wrapping_add(ADDEND);
        let high = (self.state >> 33) as usize;
        high % k
    }
}
