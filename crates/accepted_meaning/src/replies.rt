ghost use Rattle.accepted_meaning.specs.ReplyLaws.{OutputsAreReplied, SentIsReplied};

/// Replies that are the sites' own values change nothing in an accepted program: its outputs and what
/// its sites are sent are those under the replies.
pub fn own_reply_laws()
    ensures outputs { OutputsAreReplied }
    ensures sent { SentIsReplied }
{}
