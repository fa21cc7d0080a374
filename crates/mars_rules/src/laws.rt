//! What holds of rules that goals take by matching heads and building bodies. The machine rests on these laws.
ghost use Rattle.mars_rules.specs.TakenRules.{MatchedIsTaken, BuiltHasNodes, RefusedIsNever};

/// A goal whose rule's head was matched and whose body was built took the rule: all solutions are as a copy of the rule
/// says, over the nodes of the rule's variables. Where the head was refused, no solution has it.
pub fn rules_are_taken()
    ensures taken { MatchedIsTaken }
    ensures nodes { BuiltHasNodes }
    ensures refused { RefusedIsNever }
{}
