ghost use Rattle.ready_nodes.specs.Ready.{NodesAreReady};

/// In an ordered core with the static facts that makes no async call, a node is ready for a step at each
/// instant of calls whose rows fit its inputs, under any marks, where no call has a reply: the variables
/// that clocks and merges name, in its text and in those of the nodes that it calls, have values where
/// they are present, and each value of a merge's variable has a branch.
pub fn ready_law()
    ensures { NodesAreReady }
{}
