ghost use Rattle.core_fitting.specs.Laws.{CallsHaveArguments, ClocksAreFirm, DefinedIsFirm, HoldsEverywhere, MergesAreCovered, OutputsFit, ResetsAreFirm, SitesAreSent};
ghost use Rattle.core_fitting.specs.StaticLaws.{StaticFits, StaticIsSound};

/// In an ordered core with the static facts, on rows and under replies that fit, with any marks, what
/// is known fits in each body of the expanded text at every instant. What a step without undefined
/// values needs follows: the variables of clocks, resets and merges have values where they are present,
/// merges have a branch for each value, arguments of calls have values, and so have the outputs; and
/// each site is sent calls that fit.
pub fn fits_laws()
    ensures holds { HoldsEverywhere }
    ensures firm { DefinedIsFirm }
    ensures clocks { ClocksAreFirm }
    ensures resets { ResetsAreFirm }
    ensures merges { MergesAreCovered }
    ensures arguments { CallsHaveArguments }
    ensures outputs { OutputsFit }
    ensures sent { SitesAreSent }
{}

/// A well-formed core with the static facts is sound form by form; and an ordered one, on rows and
/// under replies that fit, meets the premises of the laws.
pub fn static_laws()
    ensures sound { StaticIsSound }
    ensures fits { StaticFits }
{}
