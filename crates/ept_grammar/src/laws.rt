ghost use Rattle.ept_grammar.specs.Laws.{
  BegunIsChosen,
  EachHasText,
  EmptyIsChosen,
  OneCut,
  OneRefusal,
  OneRoles,
  OneTree,
  StopIsRefusal,
  TextIsNotRefused,
};

/// The laws of texts: bytes are cut in one way, tokens stand for one tree at most and have one role each,
/// each part has a text, one token of look-ahead chooses the rule, a reader that goes by it stops where
/// the text is refused, a text is refused nowhere, and other tokens in one way.
pub fn grammar_laws()
    ensures one_cut { OneCut }
    ensures one_tree { OneTree }
    ensures one_roles { OneRoles }
    ensures each_has_text { EachHasText }
    ensures begun_is_chosen { BegunIsChosen }
    ensures empty_is_chosen { EmptyIsChosen }
    ensures stop_is_refusal { StopIsRefusal }
    ensures text_is_not_refused { TextIsNotRefused }
    ensures one_refusal { OneRefusal }
{}
