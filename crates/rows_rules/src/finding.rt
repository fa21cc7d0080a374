//! Rows of look-ups: `at(GOAL,PLACE)` is the first rule from a place on that a goal may take, and `by(GOAL,FIRST,PLACE)`
//! the first one by the goal's first argument, too.
use mars_base::NoMemory;
use mars_rules::RuleBase;
use mars_script::Command;
use mars_term::{Goal, Term};
use mars_tree::Label;
use rows::{Stop, push_number};

/// Writes what the look-ups find that the asks of a session have as their goals.
pub(crate) fn push_finds(
    base: &RuleBase,
    commands: &[Command],
    into: &mut Vec<u8>,
) -> Result<(), Stop> {
    for command in commands {
        if let Command::Ask { ask } = command {
            push_goals(base, ask.goals.as_slice(), into)?;
        }
    }
    Ok(())
}

fn push_goals(base: &RuleBase, goals: &[Goal], into: &mut Vec<u8>) -> Result<(), NoMemory> {
    for goal in goals {
        push_found(found_by(base, goal), into)?;
    }
    Ok(())
}

/// What a look-up finds.
fn found_by(base: &RuleBase, goal: &Goal) -> Option<usize> {
    let Goal::Call(Term::Name(_, terms)) = goal else {
        return None;
    };
    match terms.as_slice() {
        [goal, place] => base.candidate(label_of(goal), place_of(place)),
        [goal, first, place] => base.candidate_by(label_of(goal), label_of(first), place_of(place)),
        _ => None,
    }
}

/// Writes a rule's place, or `-` for none.
fn push_found(found: Option<usize>, into: &mut Vec<u8>) -> Result<(), NoMemory> {
    into.extend_from_slice(b" ")?;
    match found {
        Some(rule) => push_number(rule, into),
        None => Ok(into.extend_from_slice(b"-")?),
    }
}

/// The label at a term's root, none at a variable.
fn label_of(term: &Term) -> Option<Label> {
    match term {
        Term::Var(_) | Term::Kept(_) => None,
        Term::Int(number) => Some(Label::Int(*number)),
        Term::Name(name, terms) => Some(Label::Name {
            name: *name,
            arity: count_of(terms.as_slice()),
        }),
        Term::Tup(terms) => Some(Label::Tup(count_of(terms.as_slice()))),
        Term::Dot(_, _) => Some(Label::Dot),
        Term::Str(text) => Some(Label::Str(*text)),
    }
}

fn count_of(terms: &[Term]) -> u32 {
    let mut count: u32 = 0;
    for _ in terms {
        count = count.saturating_add(1);
    }
    count
}

/// The place that an integer writes.
fn place_of(term: &Term) -> usize {
    match term {
        Term::Int(place) => usize::try_from(*place).unwrap_or(usize::MAX),
        _ => usize::MAX,
    }
}
