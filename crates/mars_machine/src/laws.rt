//! That waking, children, steps, runs and endings are determined.
ghost use Rattle.mars_machine.specs.StepLaws.{WakingIsOne, TermNumberIsOne, RuleChildrenAreOne, BuiltInChildIsOne, StepIsOne, StepStaysSolvable};
ghost use Rattle.mars_machine.specs.RunLaws.{StartIsSolvable, DerivationIsOne, EndIsOne, EndsWithoutAlternatives, StopsAtBudget};
ghost use Rattle.mars_machine.specs.TellingLaws.{TermAnswerIsOne, OpenIsOne, LeftIsOne, AskedIsOne};

/// A step of a state whose alternatives have solutions has one result: which goals wake, which children the rules give,
/// the number of a term and the child of a built-in are determined. The alternatives after it have solutions, too.
pub fn step_is_one()
    ensures waking { WakingIsOne }
    ensures number { TermNumberIsOne }
    ensures children { RuleChildrenAreOne }
    ensures built_in { BuiltInChildIsOne }
    ensures step { StepIsOne }
    ensures solvable { StepStaysSolvable }
{}

/// The start of an ask has a solution, a run is determined by its start and its number of steps, and an ask ends in one
/// way, after one number of steps.
pub fn derivation_is_one()
    ensures start { StartIsSolvable }
    ensures run { DerivationIsOne }
    ensures end { EndIsOne }
{}

/// Without a number of answers an ask ends where its run comes to a state without alternatives, or stops with the budget.
pub fn ends_are_reached()
    ensures end { EndsWithoutAlternatives }
    ensures stop { StopsAtBudget }
{}

/// What is known of terms has one answer graph at most, which inequations are open is determined, and so is what a machine
/// tells of its end.
pub fn telling_is_one()
    ensures answer { TermAnswerIsOne }
    ensures differ { OpenIsOne }
    ensures left { LeftIsOne }
    ensures asked { AskedIsOne }
{}
