ghost use Rattle.plan_example.specs.Example.{ChosenHasPlan, SumHasPlan, SumIsReady};

/// A node with a memory has a plan, and so has one with a clock, a merge and a reset. What an
/// instant of the first one asks for is there.
#[tactic(none)]
pub fn example_laws()
    ensures sum { SumHasPlan }
    ensures chosen { ChosenHasPlan }
    ensures ready { SumIsReady }
{}
