//! Equality of rules and asks, part by part, and their hashes.
ghost use Rattle.std.specs.Prelude.{◌≡◌, ◌↔◌, IsTrue};
ghost use Rattle.mars_term.specs.ClauseEquality.{same_rule, same_ask};

use crate::clause::{Ask, Rule};
use std::hash::{Hash, Hasher};

/// Whether two rules are one.
fn same_rule(rule: &Rule, other: &Rule) -> bool
    ensures { result ≡ same_rule rule.now other.now }
{
    rule.head == other.head
        && rule.body.as_slice() == other.body.as_slice()
        && rule.vars == other.vars
}

/// Whether two asks are one.
fn same_ask(ask: &Ask, other: &Ask) -> bool
    ensures { result ≡ same_ask ask.now other.now }
{
    ask.most == other.most
        && ask.goals.as_slice() == other.goals.as_slice()
        && ask.vars.as_slice() == other.vars.as_slice()
        && ask.kept.as_slice() == other.kept.as_slice()
}

impl PartialEq for Rule {
    ghost use Rattle.mars_term.specs.ClauseEquality.{same_rule};
    ghost use Rattle.mars_term.specs.ClauseEqualityLaws.{rules_partial_equivalence};

    ghost eq = { same_rule };

    ghost laws = { rules_partial_equivalence };

    /// Whether two rules are one. Linear in the smaller of them.
    fn eq(&self, other: &Rule) -> bool
        ensures value { result ≡ same_rule self.now other.now }
        ensures same { IsTrue result ↔ (self.now ≡ other.now) }
    {
        same_rule(self, other)
    }
}

impl Eq for Rule {
    ghost use Rattle.mars_term.specs.ClauseEqualityLaws.{rules_equivalence};

    ghost laws = { rules_equivalence };
}

impl Hash for Rule {
    ghost use Rattle.mars_term.specs.ClauseEquality.{rule_writes};
    ghost use Rattle.mars_term.specs.ClauseEqualityLaws.{rules_alike};

    ghost hash_input = { rule_writes };

    ghost respects_eq = { rules_alike };

    /// Hashes the head, the body, and how many variables there are.
    fn hash<H: Hasher>(&self, state: &mut H) {
        self.head.hash(state);
        self.body.as_slice().hash(state);
        self.vars.hash(state);
    }
}

impl PartialEq for Ask {
    ghost use Rattle.mars_term.specs.ClauseEquality.{same_ask};
    ghost use Rattle.mars_term.specs.ClauseEqualityLaws.{asks_partial_equivalence};

    ghost eq = { same_ask };

    ghost laws = { asks_partial_equivalence };

    /// Whether two asks are one. Linear in the smaller of them.
    fn eq(&self, other: &Ask) -> bool
        ensures value { result ≡ same_ask self.now other.now }
        ensures same { IsTrue result ↔ (self.now ≡ other.now) }
    {
        same_ask(self, other)
    }
}

impl Eq for Ask {
    ghost use Rattle.mars_term.specs.ClauseEqualityLaws.{asks_equivalence};

    ghost laws = { asks_equivalence };
}

impl Hash for Ask {
    ghost use Rattle.mars_term.specs.ClauseEquality.{ask_writes};
    ghost use Rattle.mars_term.specs.ClauseEqualityLaws.{asks_alike};

    ghost hash_input = { ask_writes };

    ghost respects_eq = { asks_alike };

    /// Hashes how many answers are wanted, the goals, the spellings and the kept names.
    fn hash<H: Hasher>(&self, state: &mut H) {
        self.most.hash(state);
        self.goals.as_slice().hash(state);
        self.vars.as_slice().hash(state);
        self.kept.as_slice().hash(state);
    }
}
