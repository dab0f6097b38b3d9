ghost use Rattle.accepted_meaning.specs.Laws.{
  AcceptedCallIsAlone,
  AcceptedHasOutputs,
  AcceptedHasSent,
  AcceptedIsSound,
  ClocksAreReached,
};

/// The laws of accepted programs: every node of one is sound, its expressions fit their types and
/// clocks, and what has to be defined is; and on all rows that fit each output is known at every
/// instant and is a value of its type. Each site is sent calls with arguments of the types of the
/// called node's inputs, on which that node alone gives what the call's body gives. The clock of what
/// is seen names variables of the same block, up to bodies of resets, each on the clock before it.
pub fn accepted_laws()
    ensures sound { AcceptedIsSound }
    ensures outputs { AcceptedHasOutputs }
    ensures sent { AcceptedHasSent }
    ensures alone { AcceptedCallIsAlone }
    ensures reached { ClocksAreReached }
{}
