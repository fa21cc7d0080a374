//! Rule bases.
ghost use Rattle.std.specs.Prelude.{◌≡◌, ◌<◌, ◌++◌, [], length, slice_get, slice_index_or, Some, None, IfOk, OnOk, OnErr, All};
ghost use Rattle.mars_rules.specs.PairedLists.{AllPaired};
ghost use Rattle.mars_term.specs.declared.clause.Rule.{Rule};
ghost use Rattle.mars_term.specs.declared.clause.Version.TheVariants.{One};
ghost use Rattle.mars_term.specs.Clauses.{IsRule};
ghost use Rattle.mars_store.specs.System.{IsSystem};
ghost use Rattle.mars_rules.specs.Candidates.{FitsGoal, FitsFirst, IsFirstRule};
ghost use Rattle.mars_rules.specs.Instances.{IsInstance};
ghost use Rattle.mars_rules.specs.FlatRules.{IsFlatRule};
ghost use Rattle.mars_rules.specs.BaseInside.{earlier_of};
ghost use Rattle.mars_rules.specs.BaseEquality.{same_base};

use crate::copying::copy_rule;
use crate::flat::FlatRule;
use crate::goals::Instance;
use crate::heads::Heads;
use crate::keys::{HeadKey, first_keys, head_keys};
use crate::laying::lay_rule;
use crate::places::{Filed, file_places, first_allowed, first_from, first_place};
use mars_base::NoMemory;
use mars_store::Store;
use mars_term::{Goal, Goals, Rule, Version};
use mars_tree::Label;
use sqlite_items::Items;
use std::alloc::Global;
use std::marker::Model;

/// Up to so many rules with one label of the head are looked at one by one; where there are more, they are looked up by the
/// first argument, too.
const FEW: usize = 8;

/// Rules in order, with a version. Each is kept as nodes, too, and its place is filed by the labels of its head and of
/// the head's first argument.
#[derive(Drop)]
pub struct RuleBase {
    alloc: Global,
    rules: Vec<Rule>,
    version: Version,
    flat: Vec<FlatRule>,
    heads: Heads,
    keys: Vec<HeadKey>,
    firsts: Filed,
}

impl Model for RuleBase {
    ghost use Rattle.mars_rules.specs.RuleLists.{RuleList};
    ghost use Rattle.mars_term.specs.contracts.term.Term as term;
    ghost use Rattle.std.specs.Coded.{codes};

    ghost Value = { RuleList };

    ghost coded = { Prim.hlevel (codes, term.the_row.coded) };

    ghost use Rattle.mars_rules.specs.BaseInside.{IsBase};

    ghost view = { λ base. record { rules = base.rules.items; version = base.version } };

    ghost invariant = { λ base. IsBase base.rules.items base.flat.items base.keys.items base.heads base.firsts.entries };
}

impl RuleBase {
    /// Copies the rules, with version 1. Linear in them.
    pub fn new(alloc: Global, rules: &[Rule]) -> Result<RuleBase, NoMemory>
        requires { All IsRule rules.now }
        ensures { IfOk result (λ base. base ≡ record { rules = rules.now; version = One }) }
    {
        RuleBase::join(alloc, rules, &[], Version::One)
    }

    /// Copies the rules of both lists, the global ones first. Linear in them.
    pub fn join(
        alloc: Global,
        global: &[Rule],
        local: &[Rule],
        version: Version,
    ) -> Result<RuleBase, NoMemory>
        requires global { All IsRule global.now }
        requires local { All IsRule local.now }
        ensures { IfOk result (λ base. base ≡ record { rules = global.now ++ local.now; version = version }) }
    {
        let mut rules = Vec::new(alloc);
        push_rules(alloc, global, &mut rules)?;
        push_rules(alloc, local, &mut rules)?;
        RuleBase::of(alloc, rules, version)
    }

    /// Lays the rules out, and files their places.
    fn of(alloc: Global, rules: Vec<Rule>, version: Version) -> Result<RuleBase, NoMemory>
        requires { All IsRule rules.items }
        ensures { IfOk result (λ base. base ≡ record { rules = rules.items; version = version }) }
    {
        let flat = lay_rules(alloc, &rules)?;
        let heads = Heads::file(alloc, &head_keys(alloc, &rules)?)?;
        let keys = first_keys(alloc, &rules)?;
        let firsts = file_places(alloc, &keys)?;
        Ok(RuleBase {
            alloc,
            rules,
            version,
            flat,
            heads,
            keys,
            firsts,
        })
    }

    /// The version by which the rules are read. They are well formed.
    pub fn version(&self) -> Version
        ensures version { result ≡ self.now.version }
        ensures rules { All IsRule self.now.rules }
    {
        self.version
    }

    /// The least rule at or after a place whose head has the label of a goal, or any rule for a goal without a label;
    /// `None` exactly where there is none. It looks at the places of that label alone, by halves. Takes no memory.
    pub fn candidate(&self, goal: Option<Label>, from: usize) -> Option<usize>
        ensures { IsFirstRule (FitsGoal goal) self.now.rules from result }
    {
        match goal {
            Some(label) => first_from(self.heads.places(label), from),
            None => any_from(&self.rules, from),
        }
    }

    /// The least of the rules that `candidate` may give whose head's first argument is a variable or has the label of the
    /// goal's first argument; `None` exactly where there is none. A goal without a label, or whose first argument has
    /// none, is that of `candidate`. It looks at each of up to 8 rules with the goal's label, and of more at those that fit
    /// alone, by halves. Takes no memory.
    pub fn candidate_by(
        &self,
        goal: Option<Label>,
        first: Option<Label>,
        from: usize,
    ) -> Option<usize>
        ensures { IsFirstRule (FitsFirst goal first) self.now.rules from result }
    {
        match goal {
            Some(label) => match first {
                Some(argument) => self.candidate_of(label, argument, from),
                None => self.candidate(goal, from),
            },
            None => self.candidate(goal, from),
        }
    }

    /// The least rule from a place on with these labels of the head and of its first argument, or with a variable there.
    fn candidate_of(&self, label: Label, argument: Label, from: usize) -> Option<usize>
        ensures { IsFirstRule (FitsFirst (Some label) (Some argument)) self.now.rules from result }
    {
        let places = self.heads.places(label);
        if places.len() <= FEW {
            first_allowed(&self.keys, places, argument, from)
        } else {
            self.candidate_of_many(label, argument, from)
        }
    }

    /// The same, by halves among the rules that fit.
    fn candidate_of_many(&self, label: Label, argument: Label, from: usize) -> Option<usize>
        ensures { IsFirstRule (FitsFirst (Some label) (Some argument)) self.now.rules from result }
    {
        let open = HeadKey { label, first: None };
        let same = HeadKey {
            label,
            first: Some(argument),
        };
        earlier(
            first_place(&self.firsts, &open, from),
            first_place(&self.firsts, &same, from),
        )
    }

    /// A rule, counted from 0, as a template, whose head can be matched and whose body built by `mars_matching`.
    pub fn flat(&self, rule: usize) -> &FlatRule
        requires { rule < length self.now.rules }
        ensures { (written : Rule) → slice_get self.now.rules rule ≡ Some written → IsFlatRule written result.now }
    {
        flat_at(&self.flat, rule)
    }

    /// A copy of a rule, counted from 0, with new variables. Linear in the nodes of its terms. Out of memory leaves the
    /// store as it was.
    pub fn instance(&self, store: &mut Store, rule: usize) -> Result<Instance, NoMemory>
        requires { rule < length self.now.rules }
        ensures copy { (written : Rule) → slice_get self.now.rules rule ≡ Some written → IfOk result (λ copy. IsInstance store.old store.new written copy) }
        ensures err { OnErr result (store.new ≡ store.old) }
        ensures system { IsSystem store.new }
    {
        copy_rule(self.alloc, store, flat_at(&self.flat, rule))
    }
}

impl PartialEq for RuleBase {
    ghost use Rattle.std.specs.Prelude.{◌≡◌, ◌↔◌, IsTrue};
    ghost use Rattle.mars_rules.specs.BaseEquality.{same_base};
    ghost use Rattle.mars_rules.specs.BaseEqualityLaws.{bases_partial_equivalence};

    ghost eq = { same_base };

    ghost laws = { bases_partial_equivalence };

    /// Whether two have the same version, and the same rules in the same order. Linear in the rules.
    fn eq(&self, other: &RuleBase) -> bool
        ensures value { result ≡ same_base self.now other.now }
        ensures same { IsTrue result ↔ (self.now ≡ other.now) }
    {
        same_parts(self.version, other.version, &self.rules, &other.rules)
    }
}

impl Eq for RuleBase {
    ghost use Rattle.mars_rules.specs.BaseEqualityLaws.{bases_equivalence};

    ghost laws = { bases_equivalence };
}

/// Whether two versions are one, and two lists of rules.
fn same_parts(version: Version, of_other: Version, rules: &[Rule], others: &[Rule]) -> bool
    ensures { result ≡ same_base (record { rules = rules.now; version = version }) (record { rules = others.now; version = of_other }) }
{
    version == of_other && rules == others
}

/// The first of all rules from a place on.
fn any_from(rules: &[Rule], from: usize) -> Option<usize>
    ensures { IsFirstRule (FitsGoal None) rules.now from result }
{
    if from < rules.len() { Some(from) } else { None }
}

/// The rule at a place, as nodes.
fn flat_at(flat: &[FlatRule], rule: usize) -> &FlatRule
    requires { rule < length flat.now }
    ensures { result.now ≡ slice_index_or flat.now rule result.now }
{
    &flat[rule]
}

/// The lesser of two places, either of which may be missing.
fn earlier(one: Option<usize>, other: Option<usize>) -> Option<usize>
    ensures { result ≡ earlier_of one other }
{
    match (one, other) {
        (Some(one), Some(other)) => Some(one.min(other)),
        (Some(one), None) => Some(one),
        (None, other) => other,
    }
}

/// Adds copies of rules.
fn push_rules(alloc: Global, from: &[Rule], rules: &mut Vec<Rule>) -> Result<(), NoMemory>
    ensures { OnOk result (rules.new.items ≡ rules.old.items ++ from.now) }
{
    for rule in from {
        rules.push(copy_of(alloc, rule)?)?;
    }
    Ok(())
}

/// The same rule once more.
fn copy_of(alloc: Global, rule: &Rule) -> Result<Rule, NoMemory>
    ensures { IfOk result (λ copy. copy ≡ rule.now) }
{
    Ok(Rule {
        head: rule.head.copy(alloc)?,
        body: copy_body(alloc, rule.body.as_slice())?,
        vars: rule.vars,
    })
}

/// The same goals once more.
fn copy_body(alloc: Global, goals: &[Goal]) -> Result<Goals, NoMemory>
    ensures { IfOk result (λ copy. copy ≡ goals.now) }
{
    let mut copy = Items::new(alloc);
    for goal in goals {
        copy.push(copy_goal(alloc, goal)?)?;
    }
    Ok(copy)
}

/// The same goal once more.
fn copy_goal(alloc: Global, goal: &Goal) -> Result<Goal, NoMemory>
    ensures { IfOk result (λ copy. copy ≡ goal.now) }
{
    match goal {
        Goal::Call(term) => Ok(Goal::Call(term.copy(alloc)?)),
        Goal::Cut => Ok(Goal::Cut),
    }
}

/// Each rule as nodes.
fn lay_rules(alloc: Global, rules: &[Rule]) -> Result<Vec<FlatRule>, NoMemory>
    requires { All IsRule rules.now }
    ensures { IfOk result (λ flat. AllPaired IsFlatRule rules.now flat.items) }
{
    let mut flat = Vec::new(alloc);
    for rule in rules {
        flat.push(lay_rule(alloc, rule)?)?;
    }
    Ok(flat)
}
