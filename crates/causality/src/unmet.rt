//! The first place at which a demand is not met.
ghost use Rattle.std.specs.Prelude.{◌≡◌, None, Some};
ghost use Rattle.std.specs.Option.{option_map};
ghost use Rattle.hept_ast.specs.Initial.{unmet};
ghost use Rattle.causality.specs.Lowest.{lower, lowest};

use hept_ast::Place;
use std::marker::Model;

/// The least place found so far at which a demand is not met.
#[derive(Drop)]
pub(crate) struct Unmet {
    first: Option<Place>,
}

impl Model for Unmet {
    ghost use Rattle.std.specs.Prelude.{Option, ℕ};
    ghost use Rattle.std.specs.Option.{option_map};

    ghost Value = { Option ℕ };

    ghost view = { λ u. option_map (λ p. p.0) u.first };
}

impl Unmet {
    pub(crate) fn new() -> Unmet
        ensures { result ≡ None }
    {
        Unmet { first: None }
    }

    pub(crate) fn first(&self) -> Option<Place>
        ensures { option_map (λ p. p.0) result ≡ self.now }
    {
        self.first
    }

    fn note(&mut self, place: Place)
        ensures { self.new ≡ lower self.old (Some place.0) }
    {
        match self.first {
            None => self.first = Some(place),
            Some(first) => {
                if place.0 < first.0 {
                    self.first = Some(place);
                }
            }
        }
    }

    /// Notes a place where a test holds.
    #[tactic(auto, using(crate::proofs::LowestOf::lowest_of))]
    pub(crate) fn note_if(&mut self, place: Place, test: bool)
        ensures { self.new ≡ lower self.old (lowest (unmet place.0 test)) }
    {
        if test {
            self.note(place);
        }
    }
}
