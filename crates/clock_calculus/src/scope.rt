//! What stands around a part of a node's text, and what is declared there.
ghost use Rattle.std.specs.Prelude.{◌≡◌, ◌∷◌, ◌++◌, [], IfOk, OnOk, map};
ghost use Rattle.std.specs.List.{list_any};
ghost use Rattle.std.specs.Option.{option_copied, option_or};
ghost use Rattle.hept_ast.specs.Clocks.{own_names};
ghost use Rattle.hept_ast.specs.Parts.{declaration, locals_around};
ghost use Rattle.hept_ast.specs.Texts.{is_in, names, same};
ghost use Rattle.clock_calculus.specs.Sites.{around_of, own_of, seen_of, site_of};

use hept_ast::{Decl, Expr, Memory, Name, Node, State};
use node_text::{is_declared_in, is_same};
use std::alloc::Global;

/// A block around something: what decides when it is active or restarted, and what it declares.
#[derive(Clone, Copy)]
pub(crate) enum Around<'a> {
    Branch(&'a Expr, &'a [Decl]),
    Body(&'a Expr, &'a [Decl]),
    State(&'a [State], &'a [Decl]),
}

/// A place in a node's text: the blocks around it, the innermost first.
#[derive(Drop)]
pub(crate) struct Scope<'a> {
    pub node: &'a Node,
    pub site: Vec<Around<'a>>,
}

fn is_declared_by_node(node: &Node, name: &Name) -> bool
    ensures { result ≡ is_in name.now (own_names node.now []) }
{
    if is_declared_in(name, node.block.locals.as_slice()) {
        return true;
    }
    if is_declared_in(name, node.outputs.as_slice()) {
        return true;
    }
    is_declared_in(name, node.inputs.as_slice())
}

/// Whether the innermost branch or state declares a name, or a reset body inside it does.
#[tactic(auto, using(crate::proofs::ScopesOf::scopes))]
fn is_own(node: &Node, site: &[Around<'_>], name: &Name) -> bool
    ensures { result ≡ is_in name.now (own_names node.now (map around_of site.now)) }
{
    for around in site {
        match around {
            Around::Branch(_, locals) => return is_declared_in(name, locals),
            Around::State(_, locals) => return is_declared_in(name, locals),
            Around::Body(_, locals) => {
                if is_declared_in(name, locals) {
                    return true;
                }
            }
        }
    }
    is_declared_by_node(node, name)
}

fn declaration_in<'a>(decls: &'a [Decl], name: &Name) -> Option<&'a Decl>
    ensures { option_copied result ≡ declaration decls.now name.now }
{
    decls.iter().find(|decl| is_same(name, &decl.name))
}

fn locals_of<'a>(around: Around<'a>) -> &'a [Decl]
    ensures { result.now ≡ locals_around (around_of around.entry ∷ []) }
{
    match around {
        Around::Branch(_, locals) => locals,
        Around::Body(_, locals) => locals,
        Around::State(_, locals) => locals,
    }
}

/// What was found, or else the declaration among these.
fn or_in<'a>(found: Option<&'a Decl>, decls: &'a [Decl], name: &Name) -> Option<&'a Decl>
    ensures { option_copied result ≡ option_or (option_copied found.entry) (declaration decls.now name.now) }
{
    match found {
        Some(decl) => Some(decl),
        None => declaration_in(decls, name),
    }
}

#[tactic(auto, using(crate::proofs::ScopesOf::declarations))]
fn declaration_around<'a>(site: &[Around<'a>], name: &Name) -> Option<&'a Decl>
    ensures { option_copied result ≡ declaration (locals_around (map around_of site.now)) name.now }
{
    let mut found = None;
    for around in site {
        found = or_in(found, locals_of(*around), name);
    }
    found
}

impl<'a> Scope<'a> {
    /// Whether this scope declares a name itself. A reset body is in the scope that holds it.
    pub(crate) fn declares(&self, name: &Name) -> bool
        ensures { result ≡ is_in name.now (own_of self.now) }
    {
        is_own(self.node, self.site.as_slice(), name)
    }

    /// The declaration of a name that is seen here.
    #[tactic(auto, using(crate::proofs::ScopesOf::declarations))]
    pub(crate) fn declaration(&self, name: &Name) -> Option<&'a Decl>
        ensures { option_copied result ≡ declaration (seen_of self.now) name.now }
    {
        let found = declaration_around(self.site.as_slice(), name);
        let found = or_in(found, self.node.block.locals.as_slice(), name);
        let found = or_in(found, self.node.outputs.as_slice(), name);
        or_in(found, self.node.inputs.as_slice(), name)
    }

    /// The scope of a block that stands in this one.
    pub(crate) fn within(&self, alloc: Global, around: Around<'a>) -> Result<Scope<'a>, Memory>
        ensures node { IfOk result (λ s. s.node.now ≡ self.now.node.now) }
        ensures site { IfOk result (λ s. site_of s ≡ around_of around.entry ∷ site_of self.now) }
    {
        let mut site = Vec::new(alloc);
        push_around(&mut site, around)?;
        for outer in self.site.as_slice() {
            push_around(&mut site, *outer)?;
        }
        Ok(Scope {
            node: self.node,
            site,
        })
    }
}

fn push_around<'a>(site: &mut Vec<Around<'a>>, around: Around<'a>) -> Result<(), Memory>
    ensures { OnOk result (map around_of site.new.items ≡ map around_of site.old.items ++ around_of around.entry ∷ []) }
{
    match site.push(around) {
        Ok(()) => Ok(()),
        Err(_) => Err(Memory),
    }
}
