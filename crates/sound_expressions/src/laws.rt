ghost use Rattle.sound_expressions.specs.Judgings.{JudgedIsSound};
ghost use Rattle.sound_expressions.specs.Values.{ConstantsFit, MergesHaveBranches};

/// An expression without faults, whose conditions of clocks and demands are met, has types, and is
/// sound on its clock. A constant is a value of its type, and a merge with all tags of a type has a
/// branch for each value of it.
pub fn sound_expression_laws()
    ensures sound { JudgedIsSound }
    ensures constants { ConstantsFit }
    ensures merges { MergesHaveBranches }
{}
