//! How many cells the equations of a node have.
ghost use Rattle.std.specs.Prelude.{◌≡◌, ◌≤◌, IfOk};
ghost use Rattle.hept_ast.specs.declared.tree.Form.{out-Form};
ghost use Rattle.plan_equations.specs.Rights.{right_cells};
ghost use Rattle.plan_bodies.specs.Valued.{cells_of};

use hept_ast::{CoreNode, Expr, Form, Memory};

/// The number of cells of a right side: that of its memory operator.
pub(crate) fn right_cell_count(e: &Expr) -> u32
    ensures count { result ≡ right_cells (out-Form e.now.form) }
    ensures few { result ≤ 2 }
{
    match &e.form {
        Form::Fby(a, _) => match &a.get().form {
            Form::Const(_) => 1,
            _ => 2,
        },
        Form::Pre(_) | Form::Arrow(..) => 1,
        _ => 0,
    }
}

/// The number of cells of a node's equations, without what they call.
pub(crate) fn own_cell_count(node: &CoreNode) -> Result<u32, Memory>
    ensures { IfOk result (λ count. count ≡ cells_of node.now.equations) }
{
    let mut count: u32 = 0;
    for e in node.equations.as_slice() {
        if count > u32::MAX - 2 {
            return Err(Memory);
        }
        count += right_cell_count(&e.right);
    }
    Ok(count)
}
