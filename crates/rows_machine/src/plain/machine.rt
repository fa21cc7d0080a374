//! Steps and runs.
use crate::plain::alternatives::{
    Plain, after_first, child_under, opened_body, with_arguments, with_goals,
};
use crate::plain::answers::{PlainAnswer, answer_of, tree_of};
use crate::plain::equations::{are_apart, solved};
use crate::plain::goals::{Atom, Flat, PlainGoal, PlainOpen, renamed};
use crate::plain::written::PlainRule;
use mars_base::NoMemory;
use mars_canon::Canon;
use rows::Stop;
use std::alloc::Global;

/// What a step says.
#[derive(Drop)]
pub(crate) enum PlainSaid {
    Tree(Canon),
    Answer(PlainAnswer),
}

/// How a run ends.
#[derive(Clone, Copy, Debug, PartialEq, Eq)]
pub(crate) enum PlainEnd {
    End,
    Enough,
    Stopped,
}

/// The alternatives that are left, the first one last; what was said; how many steps were made, and how many answers came.
#[derive(Drop)]
pub(crate) struct PlainMachine {
    state: Vec<Plain>,
    vars: u32,
    pub(crate) said: Vec<PlainSaid>,
    pub(crate) steps: u64,
    answers: u64,
}

/// The places of the built-ins' names.
const EQ: u32 = 0;

const DIF: u32 = 1;

const BOUND: u32 = 4;

const FREE: u32 = 5;

const OUT: u32 = 6;

impl PlainMachine {
    /// The state with which an ask of some goals over so many variables starts.
    pub(crate) fn start(
        alloc: Global,
        goals: &[PlainGoal],
        vars: u32,
    ) -> Result<PlainMachine, NoMemory> {
        let mut state = Vec::new(alloc);
        state.push(Plain {
            goals: opened_body(alloc, goals, 0, 0)?,
            equal: Vec::new(alloc),
            differ: Vec::new(alloc),
            frozen: Vec::new(alloc),
            next: vars,
        })?;
        Ok(PlainMachine {
            state,
            vars,
            said: Vec::new(alloc),
            steps: 0,
            answers: 0,
        })
    }

    /// Runs until so many answers came, no alternative is left, or so many steps were made.
    pub(crate) fn run(
        &mut self,
        alloc: Global,
        rules: &[PlainRule],
        budget: u64,
        most: Option<u64>,
    ) -> Result<PlainEnd, Stop> {
        for _ in 0..budget {
            if let Some(end) = self.ended(most) {
                return Ok(end);
            }
            self.step(alloc, rules)?;
        }
        match self.ended(most) {
            Some(end) => Ok(end),
            None => Ok(PlainEnd::Stopped),
        }
    }

    /// Whether the run ends here with enough answers, or with no alternative.
    fn ended(&self, most: Option<u64>) -> Option<PlainEnd> {
        if most == Some(self.answers) {
            return Some(PlainEnd::Enough);
        }
        if self.state.is_empty() {
            return Some(PlainEnd::End);
        }
        None
    }

    /// Takes the first alternative, and puts its children in its place.
    fn step(&mut self, alloc: Global, rules: &[PlainRule]) -> Result<(), Stop> {
        let first = match self.state.pop() {
            Some(first) => first,
            None => {
                return Ok(());
            }
        };
        self.steps = self.steps.wrapping_add(1);
        match first.goals.get(0) {
            None => self.answer(alloc, &first),
            Some(goal) => {
                let goal = *goal;
                let rest = after_first(alloc, &first.goals)?;
                self.do_goal(alloc, rules, &first, goal, rest)
            }
        }
    }

    /// Says an answer.
    fn answer(&mut self, alloc: Global, first: &Plain) -> Result<(), Stop> {
        if let Some(classes) = solved(alloc, &first.equal, first.next)? {
            let answer = answer_of(alloc, &classes, self.vars, &first.differ, &first.frozen)?;
            self.said.push(PlainSaid::Answer(answer))?;
            self.answers = self.answers.wrapping_add(1);
        }
        Ok(())
    }

    /// Does the first goal.
    fn do_goal(
        &mut self,
        alloc: Global,
        rules: &[PlainRule],
        first: &Plain,
        goal: PlainOpen,
        rest: Vec<PlainOpen>,
    ) -> Result<(), Stop> {
        match goal {
            PlainOpen::CutTo(height) => {
                self.state.truncate(height);
                self.state.push(with_goals(alloc, first, rest)?)?;
                Ok(())
            }
            PlainOpen::Freeze(on, flat) => self.freeze(alloc, first, on, flat, rest),
            PlainOpen::Call(flat) => self.call(alloc, rules, first, flat, rest),
        }
    }

    /// Freezes a goal, or calls it.
    fn freeze(
        &mut self,
        alloc: Global,
        first: &Plain,
        on: Atom,
        flat: Flat,
        rest: Vec<PlainOpen>,
    ) -> Result<(), Stop> {
        if let Some(classes) = solved(alloc, &first.equal, first.next)? {
            if classes.is_known(on) {
                let mut goals = Vec::new(alloc);
                goals.push(PlainOpen::Call(flat))?;
                goals.extend_from_slice(&rest)?;
                self.state.push(with_goals(alloc, first, goals)?)?;
            } else {
                let mut child = with_goals(alloc, first, rest)?;
                child.frozen.push((on, flat))?;
                self.state.push(child)?;
            }
        }
        Ok(())
    }

    /// Calls a term.
    fn call(
        &mut self,
        alloc: Global,
        rules: &[PlainRule],
        first: &Plain,
        flat: Flat,
        rest: Vec<PlainOpen>,
    ) -> Result<(), Stop> {
        match (flat.name, flat.first, flat.second) {
            (EQ, Some(left), Some(right)) => self.equal(alloc, first, left, right, rest),
            (DIF, Some(left), Some(right)) => self.differ(alloc, first, left, right, rest),
            (BOUND, Some(atom), None) => self.test(alloc, first, atom, true, rest),
            (FREE, Some(atom), None) => self.test(alloc, first, atom, false, rest),
            (OUT, Some(atom), None) => self.out(alloc, first, atom, rest),
            _ => self.by_rules(alloc, rules, first, flat, rest),
        }
    }

    /// One equation more.
    fn equal(
        &mut self,
        alloc: Global,
        first: &Plain,
        left: Atom,
        right: Atom,
        rest: Vec<PlainOpen>,
    ) -> Result<(), Stop> {
        let mut equal = Vec::from_slice(alloc, &first.equal)?;
        equal.push((left, right))?;
        if let Some(child) = child_under(alloc, first, equal, first.next, &[], &rest)? {
            self.state.push(child)?;
        }
        Ok(())
    }

    /// One inequation more.
    fn differ(
        &mut self,
        alloc: Global,
        first: &Plain,
        left: Atom,
        right: Atom,
        rest: Vec<PlainOpen>,
    ) -> Result<(), Stop> {
        let mut child = with_goals(alloc, first, rest)?;
        child.differ.push((left, right))?;
        if let Some(classes) = solved(alloc, &child.equal, child.next)? {
            if are_apart(&classes, &child.differ) {
                self.state.push(child)?;
            }
        }
        Ok(())
    }

    /// Goes on where an atom is known, or where it isn't.
    fn test(
        &mut self,
        alloc: Global,
        first: &Plain,
        atom: Atom,
        wanted: bool,
        rest: Vec<PlainOpen>,
    ) -> Result<(), Stop> {
        if let Some(classes) = solved(alloc, &first.equal, first.next)? {
            if classes.is_known(atom) == wanted {
                self.state.push(with_goals(alloc, first, rest)?)?;
            }
        }
        Ok(())
    }

    /// Says the tree of an atom.
    fn out(
        &mut self,
        alloc: Global,
        first: &Plain,
        atom: Atom,
        rest: Vec<PlainOpen>,
    ) -> Result<(), Stop> {
        if let Some(classes) = solved(alloc, &first.equal, first.next)? {
            self.said
                .push(PlainSaid::Tree(tree_of(alloc, &classes, atom)?))?;
            self.state.push(with_goals(alloc, first, rest)?)?;
        }
        Ok(())
    }

    /// All children of a call by rules, the last one put first.
    fn by_rules(
        &mut self,
        alloc: Global,
        rules: &[PlainRule],
        first: &Plain,
        flat: Flat,
        rest: Vec<PlainOpen>,
    ) -> Result<(), Stop> {
        let height = self.state.len();
        for rule in rules.iter().rev() {
            if let Some(child) = child_by(alloc, first, flat, rule, height, &rest)? {
                self.state.push(child)?;
            }
        }
        Ok(())
    }
}

/// Whether two terms have one name and as many arguments.
fn have_one_label(one: Flat, other: Flat) -> bool {
    one.name == other.name
        && one.first.is_some() == other.first.is_some()
        && one.second.is_some() == other.second.is_some()
}

/// The child of a call by a rule.
fn child_by(
    alloc: Global,
    first: &Plain,
    flat: Flat,
    rule: &PlainRule,
    height: usize,
    rest: &[PlainOpen],
) -> Result<Option<Plain>, NoMemory> {
    if !have_one_label(flat, rule.head) {
        return Ok(None);
    }
    let equal = with_arguments(alloc, &first.equal, flat, renamed(rule.head, first.next))?;
    let body = opened_body(alloc, &rule.body, first.next, height)?;
    child_under(
        alloc,
        first,
        equal,
        first.next.wrapping_add(rule.vars),
        &body,
        rest,
    )
}
