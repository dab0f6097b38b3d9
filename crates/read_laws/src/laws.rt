ghost use Rattle.read_laws.specs.AcceptedTexts.{AcceptedIsErased, AcceptedPathsTell};
ghost use Rattle.read_laws.specs.Laws.{ReadInRange, ReadPathsDiffer, ReadPathsTell, ReadPlacesDiffer};

/// The laws of the programs that are read: in each node no two calls have one place. So, with clocks by
/// which the variables of each left side are on one clock, no two sites of a node have one path, and a
/// path tells a site from all calls that are reached. Each type has a constructor, and each number has
/// 32 bits.
pub fn read_program_laws()
    ensures places { ReadPlacesDiffer }
    ensures paths_differ { ReadPathsDiffer }
    ensures paths_tell { ReadPathsTell }
    ensures in_range { ReadInRange }
{}

/// The laws of the programs that are read and accepted: each node has a list of sites, no two of which
/// have one path, and a path tells a site from all calls that are reached; and the erased program is
/// accepted with the same clocks.
pub fn accepted_program_laws()
    ensures paths { AcceptedPathsTell }
    ensures erased { AcceptedIsErased }
{}
