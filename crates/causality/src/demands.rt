//! What expressions and declarations demand.
ghost use Rattle.std.specs.Prelude.{◌≡◌, map};
ghost use Rattle.std.specs.List.{flat_map};
ghost use Rattle.hept_ast.specs.Initial.{unmet, unmet_by, unmet_decl, unmet_expr};
ghost use Rattle.causality.specs.Demands.{grades_from, unmet_last};
ghost use Rattle.causality.specs.Lowest.{lower, lowest};

use crate::grades::may_be_nil;
use crate::unmet::Unmet;
use hept_ast::{Decl, Expr, Form, MergeBranch, Name, Place};
use node_text::is_listed;

/// Notes an expression that may be undefined and must not be.
pub(crate) fn note_expr(found: &mut Unmet, e: &Expr, nil: &[&Name])
    ensures { found.new ≡ lower found.old (lowest (unmet_expr (grades_from (map (λ r. r.now) nil.now)) e.now)) }
{
    let wrong = may_be_nil(e, nil);
    found.note_if(e.place, wrong);
}

#[tactic(auto, using(crate::proofs::LowestOf::lowest_of))]
fn note_each(found: &mut Unmet, row: &[Expr], nil: &[&Name])
    ensures { found.new ≡ lower found.old (lowest (flat_map (unmet_expr (grades_from (map (λ r. r.now) nil.now))) row.now)) }
{
    for e in row {
        note_expr(found, e, nil);
    }
}

#[tactic(auto, using(crate::proofs::LowestOf::lowest_of))]
fn note_merged(found: &mut Unmet, branches: &[MergeBranch], nil: &[&Name])
    ensures { found.new ≡ lower found.old (lowest (flat_map (λ b. unmet_expr (grades_from (map (λ r. r.now) nil.now)) b.value) branches.now)) }
{
    for branch in branches {
        note_expr(found, &branch.value, nil);
    }
}

fn note_name(found: &mut Unmet, place: Place, x: &Name, nil: &[&Name])
    ensures { found.new ≡ lower found.old (lowest (unmet place.0 (grades_from (map (λ r. r.now) nil.now) x.now))) }
{
    let wrong = is_listed(x, nil);
    found.note_if(place, wrong);
}

/// Notes what an expression demands of its own operands.
#[tactic(auto, using(crate::proofs::LowestOf::lowest_of, crate::proofs::DemandsOf::demands_of))]
fn note_own(found: &mut Unmet, e: &Expr, nil: &[&Name])
    ensures { found.new ≡ lower found.old (lowest (unmet_by (grades_from (map (λ r. r.now) nil.now)) e.now.place.0 e.now.form)) }
{
    match &e.form {
        Form::Const(_) => {}
        Form::Var(_) => {}
        Form::Last(_) => {}
        Form::Unary(_, _) => {}
        Form::Binary(_, _, _) => {}
        Form::If(_, _, _) => {}
        Form::Fby(_, b) => note_expr(found, b.get(), nil),
        Form::Pre(a) => note_expr(found, a.get(), nil),
        Form::Arrow(_, _) => {}
        Form::When(_, _, x) => note_name(found, e.place, x, nil),
        Form::Merge(x, branches) => {
            note_name(found, e.place, x, nil);
            note_merged(found, branches.as_slice(), nil);
        }
        Form::Call(_, args) => note_each(found, args.as_slice(), nil),
        Form::AsyncCall(_, _, args) => note_each(found, args.as_slice(), nil),
        Form::AsyncConst(_) => {}
        Form::Get(_) => {}
    }
}

/// Notes what expressions demand of their own operands.
#[tactic(auto, using(crate::proofs::LowestOf::lowest_of))]
pub(crate) fn note_operands(found: &mut Unmet, exprs: &[&Expr], nil: &[&Name])
    ensures { found.new ≡ lower found.old (lowest (flat_map (λ e. unmet_by (grades_from (map (λ r. r.now) nil.now)) e.place.0 e.form) (map (λ r. r.now) exprs.now))) }
{
    for e in exprs {
        note_own(found, e, nil);
    }
}

pub(crate) fn note_decl(found: &mut Unmet, decl: &Decl, nil: &[&Name])
    ensures { found.new ≡ lower found.old (lowest (unmet_decl (grades_from (map (λ r. r.now) nil.now)) decl.now)) }
{
    note_name(found, decl.place, &decl.name, nil);
}

/// Notes variables that may be undefined and must not be.
#[tactic(auto, using(crate::proofs::LowestOf::lowest_of))]
pub(crate) fn note_decls(found: &mut Unmet, decls: &[Decl], nil: &[&Name])
    ensures { found.new ≡ lower found.old (lowest (flat_map (unmet_decl (grades_from (map (λ r. r.now) nil.now))) decls.now)) }
{
    for decl in decls {
        note_decl(found, decl, nil);
    }
}

#[tactic(auto, using(crate::proofs::LowestOf::lowest_of))]
fn note_last(found: &mut Unmet, decl: &Decl, nil: &[&Name])
    ensures { found.new ≡ lower found.old (lowest (unmet_last (grades_from (map (λ r. r.now) nil.now)) decl.now)) }
{
    if decl.init.is_some() {
        note_decl(found, decl, nil);
    }
}

/// Notes variables with `last` that may be undefined.
#[tactic(auto, using(crate::proofs::LowestOf::lowest_of))]
pub(crate) fn note_lasts(found: &mut Unmet, decls: &[Decl], nil: &[&Name])
    ensures { found.new ≡ lower found.old (lowest (flat_map (unmet_last (grades_from (map (λ r. r.now) nil.now))) decls.now)) }
{
    for decl in decls {
        note_last(found, decl, nil);
    }
}
