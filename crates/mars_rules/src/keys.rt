//! What rules are found by: the label of the head, and that of its first argument.
ghost use Rattle.std.specs.Prelude.{◌≡◌, IfOk, Some, All};
ghost use Rattle.mars_rules.specs.PairedLists.{AllPaired};
ghost use Rattle.mars_term.specs.Clauses.{IsRule};
ghost use Rattle.mars_term.specs.Parts.{HasShortList};
ghost use Rattle.mars_rules.specs.TermTrees.{label_of_term, arguments_of};
ghost use Rattle.mars_rules.specs.Candidates.{label_of_first};
ghost use Rattle.mars_rules.specs.BaseInside.{IsHeadKey, IsFirstKey};

use mars_base::NoMemory;
use mars_term::{Rule, Term};
use mars_tree::Label;
use std::alloc::Global;

/// The label of a rule's head and, where rules are told apart by it, that of the first argument, if it has one.
#[derive(Clone, Copy, Debug, PartialEq, Eq, Hash)]
pub(crate) struct HeadKey {
    pub(crate) label: Label,
    pub(crate) first: Option<Label>,
}

/// The label at a term's root, none at a variable and a kept name.
fn label_of(term: &Term) -> Option<Label>
    requires { HasShortList term.now }
    ensures { result ≡ label_of_term term.now }
{
    match term {
        Term::Var(_) => None,
        Term::Int(number) => Some(Label::Int(*number)),
        Term::Name(name, terms) => Some(Label::Name {
            name: *name,
            arity: terms.len() as u32,
        }),
        Term::Tup(terms) => Some(Label::Tup(terms.len() as u32)),
        Term::Dot(_, _) => Some(Label::Dot),
        Term::Kept(_) => None,
        Term::Str(name) => Some(Label::Str(*name)),
    }
}

/// The label of a rule's head.
fn label_of_head(rule: &Rule) -> Label
    requires { IsRule rule.now }
    ensures { label_of_term rule.now.head ≡ Some result }
{
    match label_of(&rule.head) {
        Some(label) => label,
        None => unreachable!(),
    }
}

/// The label of the first argument of a rule's head, none where that is a variable or there is none.
fn label_of_argument(rule: &Rule) -> Option<Label>
    requires { IsRule rule.now }
    ensures { result ≡ label_of_first (arguments_of rule.now.head) }
{
    match &rule.head {
        Term::Name(_, terms) => match terms.as_slice().first() {
            Some(argument) => label_of(argument),
            None => None,
        },
        _ => unreachable!(),
    }
}

/// The label of a rule's head, as a key.
fn head_key(rule: &Rule) -> HeadKey
    requires { IsRule rule.now }
    ensures { IsHeadKey rule.now result }
{
    HeadKey {
        label: label_of_head(rule),
        first: None,
    }
}

/// The labels of a rule's head and of its first argument, as a key.
fn first_key(rule: &Rule) -> HeadKey
    requires { IsRule rule.now }
    ensures { IsFirstKey rule.now result }
{
    HeadKey {
        label: label_of_head(rule),
        first: label_of_argument(rule),
    }
}

/// The labels of the heads.
pub(crate) fn head_keys(alloc: Global, rules: &[Rule]) -> Result<Vec<HeadKey>, NoMemory>
    requires { All IsRule rules.now }
    ensures { IfOk result (λ keys. AllPaired IsHeadKey rules.now keys.items) }
{
    let mut keys = Vec::new(alloc);
    for rule in rules {
        keys.push(head_key(rule))?;
    }
    Ok(keys)
}

/// The labels of the heads and of their first arguments.
pub(crate) fn first_keys(alloc: Global, rules: &[Rule]) -> Result<Vec<HeadKey>, NoMemory>
    requires { All IsRule rules.now }
    ensures { IfOk result (λ keys. AllPaired IsFirstKey rules.now keys.items) }
{
    let mut keys = Vec::new(alloc);
    for rule in rules {
        keys.push(first_key(rule))?;
    }
    Ok(keys)
}
