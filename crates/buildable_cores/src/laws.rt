ghost use Rattle.buildable_cores.specs.Buildable.{FlatIsBuildable};

use call_depths::call_depth_laws;

/// A flat core in order with the static facts has nodes that plans are built of, with the nodes that they
/// call. Each equation and its clock read, at the instant, inputs and left sides before it. One whose right
/// side is a synchronous call has constants and variables as arguments, as many as the node that is called
/// has inputs, and as many left sides as it has outputs, each found at its place; any other one has one left
/// side, divides by constants other than 0, and each `when` in it takes one step off its clock. Memory
/// operators stand at the top of right sides, over constants and variables. A ground that has a body of the
/// node tests each variable that a clock or a merge names, on the clock of the steps before or of the merge,
/// and covers the branches of each merge, at least one. No chain of calls has more nodes than the core.
pub fn buildable_law()
    ensures { FlatIsBuildable }
{
    call_depth_laws();
}
