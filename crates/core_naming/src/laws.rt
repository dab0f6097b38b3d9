ghost use Rattle.core_naming.specs.NamingLaws.{NamingKeepsOutputs, NamingKeepsSent, NamingKeepsSites};

/// The laws of naming: where a well-formed core and another differ only in that one subexpression of
/// the first is a new variable of the second, their nodes have the same outputs, under any marks and
/// replies. A site of the first is sent what the site that it becomes is sent, and where no two calls
/// of a node have one path, its sites stand for those of the other node, in their order and both ways.
pub fn naming_laws()
    ensures outputs { NamingKeepsOutputs }
    ensures sent { NamingKeepsSent }
    ensures sites { NamingKeepsSites }
{}
