//! Lengths of the queues of async calls.
ghost use Rattle.std.specs.Prelude.{◌≡◌, map};
ghost use Rattle.std.specs.List.{flat_map};
ghost use Rattle.hept_ast.specs.Limits.{earlier_of, earliest, queue_limit};
ghost use Rattle.hept_ast.specs.Limits.{queue_fault};

use earliest_fault::{Found, Kind};
use hept_ast::{Expr, Form};

/// Notes an async call with a queue of no place or of more than 1024.
#[tactic(auto, using(hept_ast::proofs::Earliest::earliest_of, hept_ast::proofs::QueueForms::queue_limits_of))]
fn note_queue(found: &mut Found, e: &Expr)
    ensures { found.new ≡ earlier_of found.old (earliest (queue_limit e.now.place.0 e.now.form)) }
{
    match &e.form {
        Form::Const(_) => {}
        Form::Var(_) => {}
        Form::Last(_) => {}
        Form::Unary(_, _) => {}
        Form::Binary(_, _, _) => {}
        Form::If(_, _, _) => {}
        Form::Fby(_, _) => {}
        Form::Pre(_) => {}
        Form::Arrow(_, _) => {}
        Form::When(_, _, _) => {}
        Form::Merge(_, _) => {}
        Form::Call(_, _) => {}
        Form::AsyncCall(queue, _, _) => note_places(found, e, *queue),
        Form::AsyncConst(_) => {}
        Form::Get(_) => {}
    }
}

fn note_places(found: &mut Found, e: &Expr, queue: u32)
    ensures { found.new ≡ earlier_of found.old (earliest (queue_fault e.now.place.0 queue)) }
{
    let kept = queue as usize;
    let limit = 1024;
    let wrong = queue == 0 || limit < kept;
    found.note_if(e.place, Kind::Limit { kept, limit }, wrong);
}

#[tactic(auto, using(hept_ast::proofs::Earliest::earliest_of))]
pub(crate) fn note_queues(found: &mut Found, exprs: &[&Expr])
    ensures { found.new ≡ earlier_of found.old (earliest (flat_map (λ e. queue_limit e.place.0 e.form) (map (λ r. r.now) exprs.now))) }
{
    for e in exprs {
        note_queue(found, e);
    }
}
