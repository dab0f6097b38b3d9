ghost use Rattle.lowering_rules.specs.LoweringLaws.{
  CoreRepliesAgree,
  LoweredSitesStand,
  LoweringKeepsOutputs,
  LoweringKeepsOwnReplied,
  LoweringKeepsOwnSent,
  LoweringKeepsReplied,
  LoweringKeepsSites,
  ProgramRepliesAgree,
  SiteRepliesAgree,
};

/// The laws of lowering: where an accepted program in range becomes a core by the rules, each node has
/// the outputs of the core's node at its position, under any marks, and under any replies to the
/// program's calls and to the core's that agree. Its sites and those of the core's node stand for each
/// other, in text order: they are at the two paths of one call, call the nodes at one position, with
/// one queue, and are sent the same, whether they are found with the replies or without.
pub fn lowering_laws()
    ensures outputs { LoweringKeepsOutputs }
    ensures replied { LoweringKeepsReplied }
    ensures sites { LoweringKeepsSites }
    ensures own_sites { LoweredSitesStand }
{}

/// The laws of the replies that agree: for any replies to the calls of one side there are replies to
/// those of the other, and replies that are listed by the sites of both agree. So the outputs of a node
/// and what its sites are sent are those of the core's node under replies that are the own values of the
/// program's sites.
pub fn lowering_reply_laws()
    ensures core_replies { CoreRepliesAgree }
    ensures program_replies { ProgramRepliesAgree }
    ensures site_replies { SiteRepliesAgree }
    ensures own_outputs { LoweringKeepsOwnReplied }
    ensures own_sent { LoweringKeepsOwnSent }
{}
