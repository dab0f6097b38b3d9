ghost use Rattle.core_facts.specs.Static.{StaticCore};
ghost use Rattle.fitting_example.specs.Examples.{example_core, ExampleIsFit, LooseIsNotSound, TornIsUndefined};

/// A core with calls, clocks, a reset and a merge has the static facts, and a run of it meets the
/// premises of what fits. One whose clock is `pre` of something has them not, nor has one whose `->` is
/// not reset with the `pre` that it covers: its output is undefined at a restart.
pub fn fitting_example_laws()
    ensures static_facts { StaticCore example_core }
    ensures example { ExampleIsFit }
    ensures loose { LooseIsNotSound }
    ensures torn { TornIsUndefined }
{}
