//! Conditions of clocks, as they are collected.
ghost use Rattle.std.specs.Prelude.{◌≡◌, ◌++◌, IfOk, OnOk, map};
ghost use Rattle.hept_ast.specs.Texts.{names as declared_names};
ghost use Rattle.clock_calculus.specs.Collecting.{added, collection, counted, declaring, empty_collection};
ghost use Rattle.clock_calculus.specs.Written.{base_term, clock_term};

use hept_ast::{Decl, Memory, Name, Place, Tag};
use node_text::push_declared_names;
use std::alloc::Global;

/// What a clock stands on: the base clock of the scope, or the clock of a variable or an expression.
#[derive(Clone, Copy)]
pub(crate) enum Base<'a> {
    Empty,
    Variable(&'a Name),
    /// An expression, by its number in the node.
    Expression(usize),
}

/// A step of a clock: a variable that has the value of a tag.
#[derive(Clone, Copy)]
pub(crate) struct Step<'a> {
    pub tag: &'a Tag,
    pub name: &'a Name,
}

/// A clock as a condition names it.
#[derive(Clone, Copy)]
pub(crate) struct Clock<'a> {
    pub base: Base<'a>,
    pub step: Option<Step<'a>>,
}

/// Two clocks that have to be equal.
#[derive(Clone, Copy)]
pub(crate) struct Condition<'a> {
    pub place: Place,
    pub left: Base<'a>,
    pub right: Clock<'a>,
}

/// What was collected so far.
#[derive(Drop)]
pub(crate) struct Collected<'a> {
    pub conditions: Vec<Condition<'a>>,
    /// How many expressions were met.
    pub expressions: usize,
    /// The variables that were declared.
    pub variables: Vec<&'a Name>,
}

impl<'a> Base<'a> {
    /// The clock without a step.
    pub(crate) fn bare(self) -> Clock<'a>
        ensures { clock_term result ≡ base_term self.entry }
    {
        Clock {
            base: self,
            step: None,
        }
    }
}

impl<'a> Collected<'a> {
    pub(crate) fn new(alloc: Global) -> Collected<'a>
        ensures { collection result ≡ empty_collection }
    {
        Collected {
            conditions: Vec::new(alloc),
            expressions: 0,
            variables: Vec::new(alloc),
        }
    }

    /// The number of the next expression.
    #[tactic(auto, unfolding(crate::specs::Collecting::counted))]
    pub(crate) fn next(&mut self) -> Result<usize, Memory>
        ensures number { IfOk result (λ n. n ≡ (collection self.old).count) }
        ensures counted { OnOk result (collection self.new ≡ counted (collection self.old)) }
    {
        let number = self.expressions;
        match number.checked_add(1) {
            Some(next) => {
                self.expressions = next;
                Ok(number)
            }
            None => Err(Memory),
        }
    }

    /// Collects a condition.
    #[tactic(auto, unfolding(crate::specs::Collecting::added))]
    pub(crate) fn equal(
        &mut self,
        place: Place,
        left: Base<'a>,
        right: Clock<'a>,
    ) -> Result<(), Memory>
        ensures { OnOk result (collection self.new ≡ added (collection self.old) place.0 (base_term left.entry) (clock_term right.entry)) }
    {
        match self.conditions.push(Condition { place, left, right }) {
            Ok(()) => Ok(()),
            Err(_) => Err(Memory),
        }
    }

    /// Notes the variables that are declared.
    #[tactic(auto, unfolding(crate::specs::Collecting::declaring))]
    pub(crate) fn declare(&mut self, decls: &'a [Decl]) -> Result<(), Memory>
        ensures { OnOk result (collection self.new ≡ declaring (collection self.old) decls.now) }
    {
        push_declared_names(&mut self.variables, decls)
    }
}
