ghost use Rattle.step_plans.specs.Kept.{PreviousIsKept};
ghost use Rattle.step_plans.specs.Memories.{NewStandsForNone, OneCallMore};
ghost use Rattle.step_plans.specs.Plans.{OneActionMore, OneMeaningMore};
ghost use Rattle.step_plans.specs.Sending.{OneInstantMore, SentUpToNow};
ghost use Rattle.step_plans.specs.Instants.{KeepsHolds, MakesHolds, MeansHolds};

/// What a memory keeps, and the restart at an instant, are together what the meaning asks for.
#[tactic(none)]
pub fn kept_laws()
    ensures previous { PreviousIsKept }
{}

/// What an operation gives is what it makes, a register has what it means, and a store leaves what is kept.
#[tactic(none)]
pub fn plan_laws()
    ensures makes { MakesHolds }
    ensures means { MeansHolds }
    ensures keeps { KeepsHolds }
{}

/// A plan is built from its first action to the last.
#[tactic(none)]
pub fn building_laws()
    ensures action { OneActionMore }
    ensures meaning { OneMeaningMore }
{}

/// What each site is sent, an instant after another.
#[tactic(none)]
pub fn sending_laws()
    ensures one_more { OneInstantMore }
    ensures sent { SentUpToNow }
{}

/// A new memory stands for no calls, and an instant for one call more, marked or not.
#[tactic(none)]
pub fn memory_laws()
    ensures none { NewStandsForNone }
    ensures more { OneCallMore }
{}
