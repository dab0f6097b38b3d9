ghost use Rattle.core_facts.specs.Kept.{OrderKeepsStatic, SumIsStatic};

/// Another order of a core's equations keeps its static facts. The core of one node that sums its
/// inputs has them.
pub fn core_facts_laws()
    ensures order { OrderKeepsStatic }
    ensures sum { SumIsStatic }
{}
