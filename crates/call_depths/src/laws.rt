ghost use Rattle.call_depths.specs.Depths.{CallsAreBounded};

/// The law of chains of calls: in a well-formed core no chain of calls, from any node that is found by
/// its name, has more nodes than the core.
pub fn call_depth_laws()
    ensures bounded { CallsAreBounded }
{}
