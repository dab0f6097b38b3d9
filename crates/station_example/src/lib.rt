// An example of a station: a node that adds up its inputs, an owner whose calls take futures of each other, and workers that do them.
#![tactic(auto)]

ghost use Rattle.std.specs.Prelude.{◌≡◌, ℕ, List, ◌+◌, ◌%◌, ◌^◌, ◌<◌, ◌++◌, ◌∷◌, [], slice_index};
ghost use Rattle.station_rule.specs.declared.view.Sent.{Sent};
ghost use Rattle.station_example.specs.Total.{StandsFor, outputs};

use station_rule::Meaning;
use std::marker::Model;

mod owner;
mod runs;
mod standing;
#[cfg(test)]
mod tests;
mod worker;

pub use owner::{offer, offer_once, offer_pair, offer_pairs, offer_plain};
pub use runs::{one_place, run};
pub use standing::{ServerBack, with_worker};
pub use worker::{SumOwner, SumServer, Sums, TURNS, complete, do_one, stand, work};

/// The sum of the inputs so far, in 32 bits.
#[derive(Drop)]
pub struct Sum {
    total: u32,
}

impl Model for Sum {
    ghost Value = { ℕ };

    ghost view = { λ s. s.total };
}

/// The sum stands for the calls, and each call is given it.
pub struct Adds;

impl Meaning<Sum> for Adds {
    ghost stands = { StandsFor };

    ghost given = { outputs };
}

impl Sum {
    pub fn new() -> Sum
        ensures { result ≡ 0 }
    {
        Sum { total: 0 }
    }

    pub fn total(&self) -> u32
        ensures { result ≡ self.now }
    {
        self.total
    }

    /// Does one more call.
    pub fn step(&mut self, value: u64)
        ensures { (s : Sent) → slice_index s.values 0 ≡ value → (i : ℕ) (sents : List Sent) → StandsFor i self.old sents → StandsFor i self.new (sents ++ s ∷ []) }
    {
        let value = (value % (1 << 32)) as u32;
        self.total = self.total.wrapping_add(value);
    }
}
