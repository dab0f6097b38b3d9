ghost use Rattle.erased_rules.specs.ErasedClocks.{
  ClockedOfErased,
  ClocksOfErased,
  ErasedKeepsClocked,
  ErasedKeepsClocks,
  ErasedKeepsLeastClocks,
  LeastClocksOfErased,
};
ghost use Rattle.erased_rules.specs.ErasedDemands.{ErasedKeepsDemands, ErasedKeepsInitialised};
ghost use Rattle.erased_rules.specs.ErasedLimits.{ErasedKeepsLimits};
ghost use Rattle.erased_rules.specs.ErasedStages.{ErasedHasLeastClocks, ErasedKeepsAccepted, ErasedKeepsClockedProgram};
ghost use Rattle.erased_rules.specs.ErasedTypes.{ErasedKeepsTyped, TypedNeedsConstructors};

/// The laws of erasure and the static rules: where a program has no fault of limits, its erasure has
/// none. Where it reads no undefined value, its erasure reads none. The clocks of a node's variables are
/// those of the erased node, both ways, and so are the least clocks. Where a program has no fault of
/// names, types and futures, and each of its types has a constructor, its erasure has none; without
/// that premise it may have one. So the erasure of an accepted program is accepted, with the same clocks.
pub fn erasure_laws()
    ensures limits { ErasedKeepsLimits }
    ensures demands { ErasedKeepsDemands }
    ensures initialised { ErasedKeepsInitialised }
    ensures clocks { ErasedKeepsClocks }
    ensures clocks_of_erased { ClocksOfErased }
    ensures least_clocks { ErasedKeepsLeastClocks }
    ensures least_clocks_of_erased { LeastClocksOfErased }
    ensures clocked { ErasedKeepsClocked }
    ensures clocked_of_erased { ClockedOfErased }
    ensures typed { ErasedKeepsTyped }
    ensures constructors { TypedNeedsConstructors }
    ensures least_clock_map { ErasedHasLeastClocks }
    ensures clocked_program { ErasedKeepsClockedProgram }
    ensures accepted { ErasedKeepsAccepted }
{}
