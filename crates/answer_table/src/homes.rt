//! Scopes, and where names are declared.
ghost use Rattle.std.specs.Prelude.{◌≡◌, ◌≤◌, ◌++◌, IfOk, length};
ghost use Rattle.std.specs.List.{find, list_any, position};
ghost use Rattle.std.specs.Option.{option_copied};
ghost use Rattle.hept_ast.specs.Texts.{is_in, names, same};
ghost use Rattle.answer_table.specs.HomePaths.{IsOwnHome, ends_inner, is_inner_step};
ghost use Rattle.answer_table.specs.Tables.{Declares, IsHomePath, IsScopeAt};

use crate::answers::{Answers, copied};
use crate::paths::{Step, View};
use crate::questions::Stop;
use hept_ast::{Block, Decl, Memory, Name, Node};

fn is_named(decl: &Decl, name: &Name) -> bool
    ensures { result ≡ same name.now decl.now.name }
{
    name.bytes() == decl.name.bytes()
}

/// The position of the first declaration of a name.
pub fn declared_at(declared: &[Decl], name: &Name) -> Option<usize>
    ensures { result ≡ position (λ d. same name.now d.name) declared.now }
{
    declared.iter().position(|decl| is_named(decl, name))
}

/// The first declaration of a name.
pub fn declaration<'a>(declared: &'a [Decl], name: &Name) -> Option<&'a Decl>
    ensures { option_copied result ≡ find (λ d. same name.now d.name) declared.now }
{
    declared.iter().find(|decl| is_named(decl, name))
}

fn is_name_of_any(declared: &[Decl], name: &Name) -> bool
    ensures { result ≡ list_any (λ d. same name.now d.name) declared.now }
{
    declared.iter().any(|decl| is_named(decl, name))
}

#[tactic(auto, using(crate::proofs::HomePaths::is_declared))]
fn is_declared(declared: &[Decl], name: &Name) -> bool
    ensures { result ≡ is_in name.now (names declared.now) }
{
    is_name_of_any(declared, name)
}

/// Whether a node declares a variable as input, output or in its own block.
fn node_declares(node: &Node, name: &Name) -> bool
    ensures { result ≡ is_in name.now (names (node.now.inputs ++ node.now.outputs ++ node.now.block.locals)) }
{
    is_declared(node.inputs.as_slice(), name)
        || is_declared(node.outputs.as_slice(), name)
        || is_declared(node.block.locals.as_slice(), name)
}

fn is_inner_step(step: Step) -> bool
    ensures { result ≡ is_inner_step step }
{
    matches!(
        step,
        Step::Branch { .. } | Step::Body { .. } | Step::State { .. }
    )
}

/// Whether a path is one to a block inside a node.
#[tactic(auto, using(crate::proofs::HomePaths::inner_by_last))]
pub fn is_inner(path: &[Step]) -> bool
    ensures { result ≡ ends_inner path.now }
{
    match path.split_last() {
        Some((last, _)) => is_inner_step(*last),
        None => false,
    }
}

impl<'a> Answers<'a> {
    /// The number of its node, the node, and the own block of the scope that a path leads to.
    #[tactic(auto, using(crate::proofs::HomePaths::shown_scope))]
    pub fn scope(&self, path: &[Step]) -> Result<(usize, &'a Node, &'a Block), Stop<'a>>
        ensures { IfOk result (λ r. IsScopeAt self.now path.now r.0 r.1.now r.2.now) }
    {
        match self.view(path) {
            Some(
                View::Scope {
                    number,
                    node,
                    block,
                },
            ) => Ok((number, node, block)),
            _ => Err(Stop::Nothing),
        }
    }

    /// Whether a scope itself declares a name.
    pub fn declares(&self, scope: &[Step], name: &Name) -> Result<bool, Stop<'a>>
        ensures { IfOk result (Declares self.now scope.now name.now) }
    {
        let (_, node, block) = self.scope(scope)?;
        if is_inner(scope) {
            Ok(is_declared(block.locals.as_slice(), name))
        } else {
            Ok(node_declares(node, name))
        }
    }

    /// Whether the scope that declares a variable which is seen in a scope is that scope itself.
    #[tactic(auto, using(crate::proofs::HomePaths::own_node, crate::proofs::HomePaths::own_inside))]
    fn is_home(&self, scope: &[Step], name: &Name) -> Result<bool, Stop<'a>>
        ensures { IfOk result (IsOwnHome self.now scope.now name.now) }
    {
        if is_inner(scope) {
            self.declares(scope, name)
        } else {
            Ok(true)
        }
    }

    /// The path to the scope that declares a variable which is seen in a scope.
    #[tactic(auto, using(crate::proofs::HomePaths::home_here))]
    pub fn home(&self, scope: &[Step], name: &Name) -> Result<Vec<Step>, Stop<'a>>
        ensures leads { IfOk result (λ h. IsHomePath self.now scope.now name.now h.items) }
        ensures here { IfOk result (λ h. length h.items ≡ length scope.now → h.items ≡ scope.now) }
        ensures within { IfOk result (λ h. length h.items ≤ length scope.now) }
    {
        if self.is_home(scope, name)? {
            return match copied(self.alloc, scope) {
                Ok(home) => Ok(home),
                Err(Memory) => Err(Stop::Memory),
            };
        }
        match scope.split_last() {
            Some((_, outer)) => self.home(outer, name),
            None => Err(Stop::Nothing),
        }
    }
}
