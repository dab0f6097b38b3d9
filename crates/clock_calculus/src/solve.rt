//! Equations of terms, solved in the order of their places.
ghost use Rattle.std.specs.Prelude.{◌≡◌, ℕ, All, IfOk, IsPermutation, MatchBool, MatchOption, None, OnOk, length};
ghost use Rattle.std.specs.List.Sorted.{IsNonDecreasingBy};
ghost use Rattle.clock_calculus.specs.Numbering.{IsNumbered, encoded, equations_of, names_of, steps_of};
ghost use Rattle.clock_calculus.specs.Solving.{Answers, IsAnswer, IsClash, Solves};
ghost use Rattle.clock_calculus.specs.Unify.{AreEquated, CannotEqual, IsSolved, bound};
ghost use Rattle.clock_calculus.specs.Written.{base_term, clock_term, condition_of};

use crate::conditions::Condition;
use crate::numbers::Numbers;
use crate::unify::{Term, equate};
use hept_ast::{Memory, Place};
use std::alloc::Global;

/// What solving gives: what each unknown is bound to, or the place of the first equation that cannot hold with those before it.
#[derive(Drop)]
pub(crate) enum Solution {
    Solved(Vec<Option<Term>>),
    Clash(Place),
}

fn unbound(alloc: Global, unknowns: usize) -> Result<Vec<Option<Term>>, Memory>
    ensures long { IfOk result (λ b. length b.items ≡ unknowns) }
    ensures free { IfOk result (λ b. (u : ℕ) → bound b.items u ≡ None) }
{
    let mut bindings = Vec::new(alloc);
    for _ in 0..unknowns {
        if bindings.push(None).is_err() {
            return Err(Memory);
        }
    }
    Ok(bindings)
}

/// Makes the two clocks of a condition equal; false where they cannot be.
fn meet<'a>(
    alloc: Global,
    numbers: &Numbers<'a>,
    bindings: &mut [Option<Term>],
    condition: Condition<'a>,
) -> Result<bool, Memory>
    requires solved { IsSolved bindings.old }
    requires long { length bindings.old ≡ numbers.now.unknowns }
    requires numbered { IsNumbered numbers.now.unknowns (names_of numbers.now) (steps_of numbers.now) (condition_of condition) }
    ensures { IfOk result (λ done. MatchBool done
        (AreEquated bindings.old bindings.new (encoded (names_of numbers.now) (steps_of numbers.now) (base_term condition.entry.left)) (encoded (names_of numbers.now) (steps_of numbers.now) (clock_term condition.entry.right)))
        (CannotEqual bindings.old (encoded (names_of numbers.now) (steps_of numbers.now) (base_term condition.entry.left)) (encoded (names_of numbers.now) (steps_of numbers.now) (clock_term condition.entry.right)))) }
{
    let left = numbers.term(alloc, condition.left.bare())?;
    let right = numbers.term(alloc, condition.right)?;
    match equate(alloc, bindings, left, right) {
        Ok(done) => Ok(done),
        Err(_) => Err(Memory),
    }
}

/// Makes the clocks of conditions equal in their order; the place of the first that cannot be, if there is one.
fn meet_all<'a>(
    alloc: Global,
    numbers: &Numbers<'a>,
    bindings: &mut [Option<Term>],
    conditions: &[Condition<'a>],
) -> Result<Option<Place>, Memory>
    requires free { (u : ℕ) → bound bindings.old u ≡ None }
    requires long { length bindings.old ≡ numbers.now.unknowns }
    requires numbered { All (λ c. IsNumbered numbers.now.unknowns (names_of numbers.now) (steps_of numbers.now) (condition_of c)) conditions.now }
    ensures { IfOk result (λ clash. MatchOption clash (Solves numbers.now.unknowns bindings.new (equations_of numbers.now conditions.now)) (λ place. IsClash (equations_of numbers.now conditions.now) place.0)) }
{
    for condition in conditions {
        let done = meet(alloc, numbers, bindings, *condition)?;
        if !done {
            return Ok(Some(condition.place));
        }
    }
    Ok(None)
}

fn solve_in_order<'a>(
    alloc: Global,
    numbers: &Numbers<'a>,
    conditions: &[Condition<'a>],
) -> Result<Solution, Memory>
    requires { All (λ c. IsNumbered numbers.now.unknowns (names_of numbers.now) (steps_of numbers.now) (condition_of c)) conditions.now }
    ensures { IfOk result (Answers numbers.now.unknowns (equations_of numbers.now conditions.now)) }
{
    let mut bindings = unbound(alloc, numbers.unknowns)?;
    let clash = meet_all(alloc, numbers, bindings.as_mut_slice(), conditions)?;
    match clash {
        None => Ok(Solution::Solved(bindings)),
        Some(place) => Ok(Solution::Clash(place)),
    }
}

fn sort(alloc: Global, conditions: &mut [Condition<'_>]) -> Result<(), Memory>
    ensures permutation { IsPermutation conditions.old conditions.new }
    ensures sorted { OnOk result (IsNonDecreasingBy (λ c. c.place.0) conditions.new) }
{
    match conditions.sort_by_key(alloc, |condition| condition.place.0) {
        Ok(()) => Ok(()),
        Err(_) => Err(Memory),
    }
}

/// Solves conditions, those of the least places first.
pub(crate) fn solve<'a>(
    alloc: Global,
    numbers: &Numbers<'a>,
    conditions: &mut [Condition<'a>],
) -> Result<Solution, Memory>
    requires { All (λ c. IsNumbered numbers.now.unknowns (names_of numbers.now) (steps_of numbers.now) (condition_of c)) conditions.old }
    ensures { IfOk result (IsAnswer numbers.now.unknowns (equations_of numbers.now conditions.old)) }
{
    sort(alloc, conditions)?;
    solve_in_order(alloc, numbers, conditions)
}
