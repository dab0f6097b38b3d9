ghost use Rattle.core_naming.specs.NamingLaws.{NamingKeepsWellFormed, NamingMakesNoCycle};
ghost use Rattle.naming_rules.specs.Normalised.{NamingsNormalise};

/// The rules that naming a subexpression keeps: a well-formed core stays well formed, and one whose reads
/// have no cycle gets none. Where namings one after another end in normal form, the core is what a pass
/// into normal form is to give: it means the same, and its new variables have new names.
pub fn naming_rules_laws()
    ensures well_formed { NamingKeepsWellFormed }
    ensures acyclic { NamingMakesNoCycle }
    ensures normalised { NamingsNormalise }
{}
