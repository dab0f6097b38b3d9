//! The earliest fault that was found.
ghost use Rattle.std.specs.Prelude.{◌≡◌, Bool, None, Some};
ghost use Rattle.std.specs.Option.{option_map};
ghost use Rattle.hept_ast.specs.Faults.{fault, number};
ghost use Rattle.hept_ast.specs.Limits.{comes_before, earlier_of, earliest};
ghost use Rattle.earliest_fault.specs.Noted.{fault_of, kind_of};

use hept_ast::Place;
use std::marker::Model;

/// What is wrong.
#[derive(Clone, Copy)]
pub enum Kind {
    UnknownName,
    Duplicate,
    Mismatch,
    ZeroDivisor,
    Recursive,
    NotDefined,
    FutureKept,
    NestedAsync,
    Limit { kept: usize, limit: usize },
}

#[derive(Clone, Copy)]
pub struct Fault {
    pub place: Place,
    pub kind: Kind,
}

/// The earliest fault that was found: the one of least place, and at one place of least number.
#[derive(Drop)]
pub struct Found {
    first: Option<Fault>,
}

impl Model for Found {
    ghost use Rattle.std.specs.Prelude.{Option};
    ghost use Rattle.std.specs.Option.{option_map};
    ghost use Rattle.hept_ast.specs.Faults as faults;
    ghost use Rattle.earliest_fault.specs.Noted.{fault_of};

    ghost Value = { Option faults.Fault };

    ghost view = { λ f. option_map fault_of f.first };
}

fn number_of(kind: Kind) -> u8
    ensures { result ≡ number (kind_of kind) }
{
    match kind {
        Kind::UnknownName => 1,
        Kind::Duplicate => 2,
        Kind::Mismatch => 3,
        Kind::ZeroDivisor => 4,
        Kind::Recursive => 5,
        Kind::NotDefined => 6,
        Kind::FutureKept => 7,
        Kind::NestedAsync => 8,
        Kind::Limit { .. } => 9,
    }
}

fn is_before(one: Fault, other: Fault) -> bool
    ensures { result ≡ comes_before (fault_of one) (fault_of other) }
{
    let place = one.place.0;
    let others = other.place.0;
    if place < others {
        return true;
    }
    let number = number_of(one.kind);
    place == others && number < number_of(other.kind)
}

impl Found {
    pub fn new() -> Found
        ensures { result ≡ None }
    {
        Found { first: None }
    }

    pub fn first(&self) -> Option<Fault>
        ensures { option_map fault_of result ≡ self.now }
    {
        self.first
    }

    /// Notes a fault.
    pub fn note(&mut self, place: Place, kind: Kind)
        ensures { self.new ≡ earlier_of self.old (Some (record { place = place.0; kind = kind_of kind })) }
    {
        let fault = Fault { place, kind };
        match self.first {
            None => self.first = Some(fault),
            Some(first) => {
                if is_before(fault, first) {
                    self.first = Some(fault);
                }
            }
        }
    }

    /// Notes a fault where a test holds.
    #[tactic(auto, using(hept_ast::proofs::Earliest::earliest_of))]
    pub fn note_if(&mut self, place: Place, kind: Kind, test: bool)
        ensures { self.new ≡ earlier_of self.old (earliest (fault place.0 (kind_of kind) test)) }
    {
        if test {
            self.note(place, kind);
        }
    }
}
