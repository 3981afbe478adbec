ghost use Rattle.best_values.specs.Laws.{BestLaw, KeptLaw, UnboundedLaw, AskedLaw};
ghost use Rattle.best_values.specs.Examples.{BestExample, FreeSetExample, NotKeptExample};

/// Values that attain a value, and no values on which the problem holds with a smaller one: the value is best.
pub fn best_law()
    ensures { BestLaw }
{}

/// A problem holds still when the points of a free set are lowered together, however far.
pub fn kept_law()
    ensures { KeptLaw }
{}

/// Where there is a free set, no value is best: each number has one below it.
pub fn unbounded_law()
    ensures { UnboundedLaw }
{}

/// What solves the problem of a question solves the problem, and has the objective below the question's value.
pub fn asked_law()
    ensures { AskedLaw }
{}

/// Three worked examples: a problem with a best value, one with a free set, and a clause that is not kept.
pub fn examples_law()
    ensures best { BestExample }
    ensures free { FreeSetExample }
    ensures not_kept { NotKeptExample }
{}
