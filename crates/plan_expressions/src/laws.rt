ghost use Rattle.plan_expressions.specs.Plain.{PlainEmits, PlainKeeps};

/// What is built for an expression without `when` and merges is right on every clock and in every scope.
#[tactic(none)]
pub fn plain_laws()
    ensures emits { PlainEmits }
    ensures keeps { PlainKeeps }
{}
