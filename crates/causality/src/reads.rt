//! What an expression reads at its own instant.
ghost use Rattle.std.specs.Prelude.{◌≡◌, ◌++◌, OnOk, map};
ghost use Rattle.hept_ast.specs.Causal.{reads};

use hept_ast::{Expr, Form, Memory, Name};
use node_text::push_name;

/// Appends the variables that an expression reads at its own instant.
#[tactic(auto, using(hept_ast::proofs::ReadsOf::reads_of))]
pub(crate) fn push_reads<'a>(out: &mut Vec<&'a Name>, e: &'a Expr) -> Result<(), Memory>
    ensures { OnOk result (map (λ r. r.now) out.new.items ≡ map (λ r. r.now) out.old.items ++ reads e.now.form) }
{
    match &e.form {
        Form::Const(_) => Ok(()),
        Form::Var(x) => push_name(out, x),
        Form::Last(_) => Ok(()),
        Form::Unary(_, a) => push_reads(out, a.get()),
        Form::Binary(_, a, b) => {
            push_reads(out, a.get())?;
            push_reads(out, b.get())
        }
        Form::If(c, a, b) => {
            push_reads(out, c.get())?;
            push_reads(out, a.get())?;
            push_reads(out, b.get())
        }
        Form::Fby(a, _) => push_reads(out, a.get()),
        Form::Pre(_) => Ok(()),
        Form::Arrow(a, b) => {
            push_reads(out, a.get())?;
            push_reads(out, b.get())
        }
        Form::When(a, _, x) => {
            push_reads(out, a.get())?;
            push_name(out, x)
        }
        Form::Merge(x, branches) => {
            push_name(out, x)?;
            for branch in branches.as_slice() {
                push_reads(out, &branch.value)?;
            }
            Ok(())
        }
        Form::Call(_, args) => {
            for arg in args.as_slice() {
                push_reads(out, arg)?;
            }
            Ok(())
        }
        Form::AsyncCall(_, _, args) => {
            for arg in args.as_slice() {
                push_reads(out, arg)?;
            }
            Ok(())
        }
        Form::AsyncConst(_) => Ok(()),
        Form::Get(a) => push_reads(out, a.get()),
    }
}
