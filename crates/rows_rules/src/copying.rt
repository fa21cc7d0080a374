//! Copies of rules in a store.
ghost use Rattle.std.specs.Prelude.{◌<◌, length};

use crate::taking::MOST_RULES;
use crate::terms::push_term;
use mars_base::NoMemory;
use mars_rules::{BodyGoal, Instance, RuleBase};
use mars_store::Store;
use mars_tree::Names;
use rows::Stop;
use std::alloc::Global;

/// Writes a copy of each rule. All are in one store, so that variables show as new ones.
pub(crate) fn push_copies(
    alloc: Global,
    names: &Names,
    base: &RuleBase,
    into: &mut Vec<u8>,
) -> Result<(), Stop> {
    let mut store = Store::new(alloc);
    for place in 0..MOST_RULES {
        let Some(rule) = base.candidate(None, place) else {
            break;
        };
        push_copy(alloc, names, base, &mut store, rule, into)?;
    }
    Ok(())
}

/// Writes a copy of a rule.
fn push_copy(
    alloc: Global,
    names: &Names,
    base: &RuleBase,
    store: &mut Store,
    rule: usize,
    into: &mut Vec<u8>,
) -> Result<(), NoMemory>
    requires { rule < length base.now.rules }
{
    let copy = base.instance(store, rule)?;
    push_instance(alloc, names, store, &copy, into)
}

fn push_instance(
    alloc: Global,
    names: &Names,
    store: &Store,
    copy: &Instance,
    into: &mut Vec<u8>,
) -> Result<(), NoMemory> {
    into.extend_from_slice(b" ")?;
    push_term(alloc, names, store, copy.head, into)?;
    into.extend_from_slice(b" ->")?;
    for goal in copy.body.as_slice() {
        into.extend_from_slice(b" ")?;
        match goal {
            BodyGoal::Call(node) => push_term(alloc, names, store, *node, into)?,
            BodyGoal::Cut => into.extend_from_slice(b"/")?,
        }
    }
    into.extend_from_slice(b";")?;
    Ok(())
}
