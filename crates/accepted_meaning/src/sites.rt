ghost use Rattle.accepted_meaning.specs.SiteLaws.{AcceptedHasSites, AcceptedLeftsAgree, AcceptedOutputsFit};

/// The sites of accepted programs: each node has a list of them, and the variables of each left side
/// in its expanded text are on one clock; and each output that is asked of a call is one of the called
/// node's.
pub fn site_laws()
    ensures sites { AcceptedHasSites }
    ensures lefts { AcceptedLeftsAgree }
    ensures outputs_fit { AcceptedOutputsFit }
{}
