ghost use Rattle.std.specs.Prelude.{◌≡◌, ◌↔◌, ◌⊎◌, ◌<◌, ◌≢◌, MatchBool, Some, None, option_copied, IfOk, OnOk, ◌++◌, [], length};
ghost use Rattle.clock_calculus.specs.Unify.{SameSolutions, HaveNoSolution, IsSolved, IsWithin, IsResolved, AreEquated, CannotEqual, FreeBase, bind, bound, replaced, unknown, empty};

use sqlite_items::Items;
use std::alloc::{AllocError, Global};

/// An unknown, or the empty path, followed by steps.
#[derive(Drop)]
pub struct Term {
    pub base: Option<usize>,
    pub steps: Items<usize>,
}

/// Takes the last steps off two terms; false where they differ.
fn strip_step(left: &mut Term, right: &mut Term) -> bool
    requires left { left.old.steps ≢ [] }
    requires right { right.old.steps ≢ [] }
    ensures solutions { MatchBool
        result
        (SameSolutions left.old right.old left.new right.new)
        (HaveNoSolution left.old right.old) }
    ensures shorter { length left.new.steps < length left.old.steps }
    ensures left_base { left.new.base ≡ left.old.base }
    ensures right_base { right.new.base ≡ right.old.base }
{
    match (left.steps.pop(), right.steps.pop()) {
        (Some(one), Some(other)) => one == other,
        _ => unreachable!(),
    }
}

/// Takes equal last steps off two terms until one has none; false where two last steps differ.
fn strip(left: &mut Term, right: &mut Term) -> bool
    ensures left_base { left.new.base ≡ left.old.base }
    ensures right_base { right.new.base ≡ right.old.base }
    ensures solutions { MatchBool
        result
        (SameSolutions left.old right.old left.new right.new × ((left.new.steps ≡ []) ⊎ (right.new.steps ≡ [])))
        (HaveNoSolution left.old right.old) }
{
    while !left.steps.is_empty() && !right.steps.is_empty() {
        if !strip_step(left, right) {
            return false;
        }
    }
    true
}

impl Term {
    fn stands_on(&self, u: usize) -> bool
        ensures { MatchBool result (self.now.base ≡ Some u) (self.now.base ≢ Some u) }
    {
        match self.base {
            None => false,
            Some(v) => v == u,
        }
    }

    /// This term with more steps.
    fn followed_by(&self, alloc: Global, more: &[usize]) -> Result<Term, AllocError>
        ensures { IfOk result (λ t. (t.base ≡ self.now.base) × (t.steps ≡ self.now.steps ++ more.now)) }
    {
        let mut steps = Items::from_slice(alloc, self.steps.as_slice())?;
        let rest = Items::from_slice(alloc, more)?;
        steps.append(rest)?;
        Ok(Term {
            base: self.base,
            steps,
        })
    }
}

/// What an unknown is bound to.
fn bound_to(bindings: &[Option<Term>], u: usize) -> Option<&Term>
    requires { u < length bindings.now }
    ensures { option_copied result ≡ bound bindings.now u }
{
    bindings[u].as_ref()
}

/// The term with the base, if that is bound, replaced by what it is bound to.
fn resolve(alloc: Global, bindings: &[Option<Term>], t: Term) -> Result<Term, AllocError>
    requires solved { IsSolved bindings.now }
    requires within { IsWithin (length bindings.now) t.base }
    ensures { IfOk result (λ r. IsResolved bindings.now t r) }
{
    match t.base {
        None => Ok(t),
        Some(u) => match bound_to(bindings, u) {
            None => Ok(t),
            Some(b) => b.followed_by(alloc, t.steps.as_slice()),
        },
    }
}

/// Puts a term in the place of an unknown at the base of what another unknown is bound to.
fn replace(alloc: Global, place: &mut Option<Term>, u: usize, t: &Term) -> Result<(), AllocError>
    ensures { OnOk result (place.new ≡ replaced u t.now place.old) }
{
    match place {
        None => Ok(()),
        Some(b) => {
            if b.base == Some(u) {
                let longer = t.followed_by(alloc, b.steps.as_slice())?;
                *b = longer;
            }
            Ok(())
        }
    }
}

/// Binds a free unknown.
fn bind_to(
    alloc: Global,
    bindings: &mut [Option<Term>],
    u: usize,
    t: Term,
) -> Result<(), AllocError>
    requires { u < length bindings.old }
    ensures { OnOk result (bindings.new ≡ bind bindings.old u t) }
{
    for v in 0..bindings.len() {
        let place = &mut bindings[v];
        replace(alloc, place, u, &t)?;
    }
    bindings[u] = Some(t);
    Ok(())
}

/// Makes a free unknown equal to a term.
fn equate_unknown(
    alloc: Global,
    bindings: &mut [Option<Term>],
    u: usize,
    t: Term,
) -> Result<bool, AllocError>
    requires solved { IsSolved bindings.old }
    requires within { u < length bindings.old }
    requires free { bound bindings.old u ≡ None }
    requires base { FreeBase bindings.old t.base }
    ensures { IfOk result (λ done. MatchBool done (AreEquated bindings.old bindings.new (unknown u) t) (CannotEqual bindings.old (unknown u) t)) }
{
    if t.stands_on(u) {
        return Ok(t.steps.is_empty());
    }
    bind_to(alloc, bindings, u, t)?;
    Ok(true)
}

/// Makes the empty path equal to a term.
fn equate_empty(alloc: Global, bindings: &mut [Option<Term>], t: Term) -> Result<bool, AllocError>
    requires solved { IsSolved bindings.old }
    requires base { FreeBase bindings.old t.base }
    ensures { IfOk result (λ done. MatchBool done (AreEquated bindings.old bindings.new empty t) (CannotEqual bindings.old empty t)) }
{
    if !t.steps.is_empty() {
        return Ok(false);
    }
    match t.base {
        None => Ok(true),
        Some(v) => {
            let none = Term {
                base: None,
                steps: Items::new(alloc),
            };
            bind_to(alloc, bindings, v, none)?;
            Ok(true)
        }
    }
}

/// Makes two terms equal; false where no assignment that respects the bindings does.
pub fn equate(
    alloc: Global,
    bindings: &mut [Option<Term>],
    left: Term,
    right: Term,
) -> Result<bool, AllocError>
    requires solved { IsSolved bindings.old }
    requires left { IsWithin (length bindings.old) left.base }
    requires right { IsWithin (length bindings.old) right.base }
    ensures { IfOk result (λ done. MatchBool done (AreEquated bindings.old bindings.new left right) (CannotEqual bindings.old left right)) }
{
    let mut one = resolve(alloc, bindings, left)?;
    let mut other = resolve(alloc, bindings, right)?;
    if !strip(&mut one, &mut other) {
        return Ok(false);
    }
    if other.steps.is_empty() {
        equate_base(alloc, bindings, other.base, one)
    } else {
        equate_base(alloc, bindings, one.base, other)
    }
}

/// Makes an unknown or the empty path equal to a term.
fn equate_base(
    alloc: Global,
    bindings: &mut [Option<Term>],
    base: Option<usize>,
    t: Term,
) -> Result<bool, AllocError>
    requires solved { IsSolved bindings.old }
    requires free { FreeBase bindings.old base }
    requires base { FreeBase bindings.old t.base }
    ensures { IfOk
        result
        (λ done. MatchBool
        done
        (AreEquated bindings.old bindings.new (record { base = base; steps = [] }) t)
        (CannotEqual bindings.old (record { base = base; steps = [] }) t)) }
{
    match base {
        None => equate_empty(alloc, bindings, t),
        Some(u) => equate_unknown(alloc, bindings, u, t),
    }
}
