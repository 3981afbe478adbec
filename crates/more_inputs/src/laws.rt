ghost use Rattle.more_inputs.specs.Laws.{MoreInputsRefute, MoreInputsRefuteEach, MoreInputsKeep};

/// What is refuted over a problem's clauses is refuted over them and others behind them: one lemma, lemmas one after the
/// other, and a refutation.
pub fn more_inputs_law()
    ensures lemma { MoreInputsRefute }
    ensures lemmas { MoreInputsRefuteEach }
    ensures refutation { MoreInputsKeep }
{}
