//! What expressions give, and the faults in them.
ghost use Rattle.std.specs.Prelude.{◌≡◌};
ghost use Rattle.std.specs.Option.{option_map};
ghost use Rattle.hept_ast.specs.Faults.{barred, judge, judge_expr};
ghost use Rattle.hept_ast.specs.Limits.{earlier_of, earliest};
ghost use Rattle.hept_ast.specs.Types.{alike};
ghost use Rattle.expression_types.specs.Fits.{fit_of};
ghost use Rattle.expression_types.specs.Judgings.{args_judged, branch_judged, branches_judged, call_judged_by, merge_judged, takes};
ghost use Rattle.expression_types.specs.Scene.{judging_of};
ghost use Rattle.declared_types.specs.Types.{type_in, types_in};

use crate::calls::{also_taken, call_fit, inputs_of, named_node, note_call, takes_all};
use crate::divisors::note_zero_divisor;
use crate::fits::{
    Fit, alike_one, alike_two, also_alike, binary_fit, fits, get_fit, if_fit, settle, unary_fit,
};
use crate::merges::{branch_fit, has_tag, merge_fit, note_merge, note_tag, note_when, when_fit};
use crate::reads::{judge_const, judge_last, judge_ready, judge_var, variable_type};
use crate::scenes::Scene;
use declared_types::{Type, Types};
use earliest_fault::Found;
use hept_ast::{Decl, Expr, Form, MergeBranch, Name, Place};

/// What a strong condition may not hold is a mismatch there.
fn barred<'a>(scene: &Scene<'a>, fit: Option<Fit<'a>>) -> Option<Fit<'a>>
    ensures { option_map fit_of result ≡ option_map (barred (judging_of scene.now)) (option_map fit_of fit.entry) }
{
    let fit = fit?;
    if scene.strong {
        Some(Fit::Misfit)
    } else {
        Some(fit)
    }
}

/// The types that an expression gives, unless a fault stands in it. All faults in it are noted.
pub fn judge_expr<'a>(found: &mut Found, scene: &Scene<'a>, e: &Expr) -> Option<Types<'a>>
    ensures noted { found.new ≡ earlier_of found.old (earliest (judge_expr (judging_of scene.now) e.now).faults) }
    ensures types { option_map types_in result ≡ (judge_expr (judging_of scene.now) e.now).types }
{
    judge(found, scene, false, e)
}

#[cycle(judging)]
fn judge<'a>(found: &mut Found, scene: &Scene<'a>, under_get: bool, e: &Expr) -> Option<Types<'a>>
    ensures noted { found.new ≡ earlier_of found.old (earliest (judge (judging_of scene.now) under_get e.now.place.0 e.now.form).faults) }
    ensures types { option_map types_in result ≡ (judge (judging_of scene.now) under_get e.now.place.0 e.now.form).types }
{
    let place = e.place;
    match &e.form {
        Form::Const(value) => judge_const(found, scene, place, value),
        Form::Var(name) => judge_var(found, scene, under_get, place, name),
        Form::Last(name) => judge_last(found, scene, place, name),
        Form::Unary(op, a) => {
            let operand = judge(found, scene, false, a.get());
            settle(found, place, false, unary_fit(*op, operand))
        }
        Form::Binary(op, a, b) => {
            let wrong = note_zero_divisor(found, place, *op, b.get());
            let left = judge(found, scene, false, a.get());
            let right = judge(found, scene, false, b.get());
            settle(found, place, wrong, binary_fit(*op, left, right))
        }
        Form::If(c, a, b) => {
            let condition = judge(found, scene, false, c.get());
            let left = judge(found, scene, false, a.get());
            let right = judge(found, scene, false, b.get());
            settle(found, place, false, if_fit(condition, left, right))
        }
        Form::Fby(a, b) => {
            let left = judge(found, scene, false, a.get());
            let right = judge(found, scene, false, b.get());
            settle(found, place, false, barred(scene, alike_two(left, right)))
        }
        Form::Pre(a) => {
            let operand = judge(found, scene, false, a.get());
            settle(found, place, false, barred(scene, alike_one(operand)))
        }
        Form::Arrow(a, b) => {
            let left = judge(found, scene, false, a.get());
            let right = judge(found, scene, false, b.get());
            settle(found, place, false, barred(scene, alike_two(left, right)))
        }
        Form::When(a, tag, name) => {
            let wrong = note_when(found, scene, place, tag, name);
            let operand = judge(found, scene, false, a.get());
            let on = variable_type(scene, name);
            settle(found, place, wrong, when_fit(scene, tag, on, operand))
        }
        Form::Merge(name, branches) => judge_merge(found, scene, place, name, branches.as_slice()),
        Form::Call(name, args) => judge_call(found, scene, place, false, name, args.as_slice()),
        Form::AsyncCall(_, name, args) => {
            judge_call(found, scene, place, true, name, args.as_slice())
        }
        Form::AsyncConst(value) => {
            let held = judge_ready(found, scene, place, value);
            settle(found, place, false, barred(scene, fits(held)))
        }
        Form::Get(a) => {
            let operand = judge(found, scene, true, a.get());
            settle(found, place, false, barred(scene, get_fit(operand)))
        }
    }
}

#[cycle(judging)]
fn judge_call<'a>(
    found: &mut Found,
    scene: &Scene<'a>,
    place: Place,
    is_async: bool,
    name: &Name,
    args: &[Expr],
) -> Option<Types<'a>>
    ensures noted { found.new ≡ earlier_of found.old (earliest (call_judged_by (judging_of scene.now) place.0 is_async name.now args.now).faults) }
    ensures types { option_map types_in result ≡ (call_judged_by (judging_of scene.now) place.0 is_async name.now args.now).types }
{
    let callee = named_node(scene, name);
    let wrong = note_call(found, scene, place, is_async, callee);
    let taken = judge_args(found, scene, inputs_of(callee), args);
    let fit = call_fit(callee, is_async, taken);
    settle(found, place, wrong, barred(scene, fit))
}

/// Whether arguments are of the types of inputs, if all of them have types.
#[cycle(judging)]
fn judge_args<'a>(
    found: &mut Found,
    scene: &Scene<'a>,
    inputs: &[Decl],
    args: &[Expr],
) -> Option<bool>
    ensures noted { found.new ≡ earlier_of found.old (earliest (args_judged (judging_of scene.now) args.now).faults) }
    ensures taken { result ≡ option_map (takes inputs.now) (args_judged (judging_of scene.now) args.now).types }
{
    let mut taken = Some(true);
    for (index, arg) in args.iter().enumerate() {
        let argument = judge(found, scene, false, arg);
        taken = also_taken(taken, inputs, index, argument);
    }
    takes_all(taken, inputs, args)
}

#[cycle(judging)]
fn judge_merge<'a>(
    found: &mut Found,
    scene: &Scene<'a>,
    place: Place,
    name: &Name,
    branches: &[MergeBranch],
) -> Option<Types<'a>>
    ensures noted { found.new ≡ earlier_of found.old (earliest (merge_judged (judging_of scene.now) place.0 name.now branches.now).faults) }
    ensures types { option_map types_in result ≡ (merge_judged (judging_of scene.now) place.0 name.now branches.now).types }
{
    let on = variable_type(scene, name);
    let wrong = note_merge(found, scene, place, name, on, branches);
    let alike = judge_branches(found, scene, on, branches);
    settle(found, place, wrong, merge_fit(on, alike))
}

/// Whether branches are of one type, if all of them have types.
#[cycle(judging)]
fn judge_branches<'a>(
    found: &mut Found,
    scene: &Scene<'a>,
    on: Option<Type<'_>>,
    branches: &[MergeBranch],
) -> Option<Fit<'a>>
    ensures noted { found.new ≡ earlier_of found.old (earliest (branches_judged (judging_of scene.now) (option_map type_in on.entry) branches.now).faults) }
    ensures alike { option_map fit_of result ≡ option_map alike (branches_judged (judging_of scene.now) (option_map type_in on.entry) branches.now).types }
{
    let mut alike = Some(Fit::Untyped);
    for (index, branch) in branches.iter().enumerate() {
        let again = has_tag(&branches[..index], &branch.tag);
        let value = judge_branch(found, scene, on, again, branch);
        alike = also_alike(alike, value);
    }
    alike
}

#[cycle(judging)]
fn judge_branch<'a>(
    found: &mut Found,
    scene: &Scene<'a>,
    on: Option<Type<'_>>,
    again: bool,
    branch: &MergeBranch,
) -> Option<Types<'a>>
    ensures noted { found.new ≡ earlier_of found.old (earliest (branch_judged (judging_of scene.now) (option_map type_in on.entry) again branch.now).faults) }
    ensures types { option_map types_in result ≡ (branch_judged (judging_of scene.now) (option_map type_in on.entry) again branch.now).types }
{
    let wrong = note_tag(found, scene, branch, again);
    let value = judge(found, scene, false, &branch.value);
    settle(
        found,
        branch.place,
        wrong,
        branch_fit(scene, &branch.tag, on, value),
    )
}
