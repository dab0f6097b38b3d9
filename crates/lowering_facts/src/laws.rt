ghost use Rattle.lowering_facts.specs.FactLaws.{LoweringMakesNoCycle, LoweringNumbersCalls};

/// The core that comes of an accepted program in range has no cycle of reads, and the calls of each of
/// its nodes are numbered from 0 in text order.
pub fn lowering_facts_laws()
    ensures acyclic { LoweringMakesNoCycle }
    ensures numbers { LoweringNumbersCalls }
{}
