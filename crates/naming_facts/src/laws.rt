ghost use Rattle.naming_facts.specs.Kept.{NamingKeepsGrades, NamingKeepsStatic, NamingsKeepStatic};

/// The static facts that naming a subexpression keeps: the new variable may be undefined by the resets
/// by which the subexpression may be, all other grades stay, and each demand that was met is met. So
/// namings one after another keep the facts of a core.
pub fn naming_facts_laws()
    ensures grades { NamingKeepsGrades }
    ensures step { NamingKeepsStatic }
    ensures steps { NamingsKeepStatic }
{}
