//! The nodes that are called.
ghost use Rattle.std.specs.Prelude.{◌≡◌, Some};
ghost use Rattle.hept_ast.specs.Scopes.{Lowered};
ghost use Rattle.hept_ast.specs.declared.tree.CoreNode.{CoreNode};
ghost use Rattle.step_plans.specs.Memories.{nodes_of};

use hept_ast::{Core, CoreNode, Name};

/// The node of a name that has one.
pub(crate) fn callee<'a>(core: &'a Core, name: &Name) -> &'a CoreNode
    requires { (node : CoreNode) × (nodes_of core.now name.now ≡ Some (Lowered node)) }
    ensures { nodes_of core.now name.now ≡ Some (Lowered result.now) }
{
    for node in core.nodes.as_slice() {
        if name.bytes() == node.name.bytes() {
            return node;
        }
    }
    unreachable!()
}
