//! Which variables of a node may be undefined.
ghost use Rattle.std.specs.Prelude.{◌≡◌, ◌++◌, IfOk, OnOk, if◌then◌else◌, [], map};
ghost use Rattle.hept_ast.specs.Initial.{grade};
ghost use Rattle.hept_ast.specs.Texts.{is_in};
ghost use Rattle.causality.specs.Flows.{flow_of};
ghost use Rattle.causality.specs.Rounds.{AreNil, is_nil, next_nil};

use crate::flows::Flow;
use hept_ast::{Expr, Form, Memory, Name};
use node_text::{is_listed, push_names};
use std::alloc::Global;

/// Whether an expression may be undefined where these variables may be.
#[tactic(auto, using(hept_ast::proofs::FormsOf::grades_of))]
pub(crate) fn may_be_nil(e: &Expr, nil: &[&Name]) -> bool
    ensures { result ≡ grade (λ x. is_in x (map (λ r. r.now) nil.now)) e.now.form }
{
    match &e.form {
        Form::Const(_) => false,
        Form::Var(x) => is_listed(x, nil),
        Form::Last(_) => false,
        Form::Unary(_, a) => may_be_nil(a.get(), nil),
        Form::Binary(_, a, b) => may_be_nil(a.get(), nil) || may_be_nil(b.get(), nil),
        Form::If(c, a, b) => {
            if may_be_nil(c.get(), nil) {
                return true;
            }
            may_be_nil(a.get(), nil) || may_be_nil(b.get(), nil)
        }
        Form::Fby(a, _) => may_be_nil(a.get(), nil),
        Form::Pre(_) => true,
        Form::Arrow(a, _) => may_be_nil(a.get(), nil),
        Form::When(a, _, _) => may_be_nil(a.get(), nil),
        Form::Merge(_, branches) => {
            for branch in branches.as_slice() {
                if may_be_nil(&branch.value, nil) {
                    return true;
                }
            }
            false
        }
        Form::Call(_, _) => false,
        Form::AsyncCall(_, _, _) => false,
        Form::AsyncConst(_) => false,
        Form::Get(a) => may_be_nil(a.get(), nil),
    }
}

/// Appends what an equation defines, where its right side may be undefined.
fn push_if_nil<'a>(
    next: &mut Vec<&'a Name>,
    flow: &Flow<'a>,
    nil: &[&'a Name],
) -> Result<(), Memory>
    ensures { OnOk result (map (λ r. r.now) next.new.items ≡ map (λ r. r.now) next.old.items ++ (if is_nil (map (λ r. r.now) nil.now) (flow_of flow.now) then flow.now.left.now else [])) }
{
    if may_be_nil(flow.right, nil) {
        push_names(next, flow.left)
    } else {
        Ok(())
    }
}

/// What is defined from what may be undefined.
fn next_nil<'a>(
    alloc: Global,
    flows: &[Flow<'a>],
    nil: &[&'a Name],
) -> Result<Vec<&'a Name>, Memory>
    ensures { IfOk result (λ v. map (λ r. r.now) v.items ≡ next_nil (map flow_of flows.now) (map (λ r. r.now) nil.now)) }
{
    let mut next = Vec::new(alloc);
    for flow in flows {
        push_if_nil(&mut next, flow, nil)?;
    }
    Ok(next)
}

/// The variables that may be undefined.
pub(crate) fn nil_variables<'a>(alloc: Global, flows: &[Flow<'a>]) -> Result<Vec<&'a Name>, Memory>
    ensures { IfOk result (λ v. AreNil (map flow_of flows.now) (map (λ r. r.now) v.items)) }
{
    let mut nil = Vec::new(alloc);
    loop {
        let next = next_nil(alloc, flows, nil.as_slice())?;
        if next.len() == nil.len() {
            return Ok(nil);
        }
        nil = next;
    }
}
