ghost use Rattle.core_rules.specs.WellFormed.{ALeftSideIsOnItsClock, CoreCallsEnd, SumIsWellFormed};
ghost use Rattle.core_rules.specs.FutureMemories.{FuturesAreCounted, OneNumberOfFutures};

/// The laws of cores: a core of one node that sums its inputs is well formed, and its reads have no
/// cycle. In a well-formed core each variable is on the clock of the equation that has it on the left,
/// and no chain of calls goes on without end. A core that gives a
/// future an instant later keeps one future, and an expanded text has one number of them.
pub fn core_laws()
    ensures sum { SumIsWellFormed }
    ensures lefts { ALeftSideIsOnItsClock }
    ensures calls { CoreCallsEnd }
    ensures counted { FuturesAreCounted }
    ensures one_number { OneNumberOfFutures }
{}
