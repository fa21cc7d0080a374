//! The machine.
ghost use Rattle.std.specs.Prelude.{◌≡◌, ◌-◌, ◌^◌, ◌<◌, length, false, true, IfOk, OnOk, OnErr, IsErr, MatchOption};
ghost use Rattle.mars_term.specs.Clauses.{IsAsk};
ghost use Rattle.mars_machine.specs.Machines.{started_machine, TellsLeft, IsMachineStep, stepped_machine, broken_machine, IsMachineAsk};
ghost use Rattle.mars_run.specs.Asking.{at_steps, EndsHere, GoesOnHere, told_after, answers_after};

use crate::copying::{copy_ask, copy_trees};
use crate::stepping::step_on;
use mars_base::NoMemory;
use mars_canon::Tree;
use mars_goals::{ChoicePoints, GoalList};
use mars_machine::{Asked, Ending, Sayings, Stepped};
use mars_memory::Memory;
use mars_rules::RuleBase;
use mars_start::start_ask;
use mars_store::{NodeId, Registers};
use mars_term::Ask;
use sqlite_items::Items;
use std::alloc::Global;
use std::marker::Model;

/// The derivations of an ask, as far as they were made: seen as its rules, its ask, its kept trees, how many steps it made,
/// and whether it ran out of memory.
#[derive(Drop)]
pub struct Machine<'r> {
    alloc: Global,
    rules: &'r RuleBase,
    ask: Ask,
    kept: Vec<Tree>,
    memory: Memory,
    points: ChoicePoints,
    registers: Registers,
    /// The nodes of the ask's variables.
    asked: Vec<NodeId>,
    /// The goals of the first alternative, which the memory holds; `None` where none is left.
    present: Option<GoalList>,
    steps: u64,
    broken: bool,
}

impl<'r> Model for Machine<'r> {
    ghost use Rattle.std.specs.Coded.{codes};
    ghost use Rattle.mars_term.specs.contracts.term.Term as term;
    ghost use Rattle.mars_machine.specs.Machines.{SeenMachine};

    ghost Value = { SeenMachine };

    ghost coded = { Prim.hlevel (codes, term.the_row.coded) };

    ghost use Rattle.mars_run.specs.Reached.{IsRunning};

    ghost view = { λ m. record { rules = m.rules.now; ask = m.ask; kept = m.kept.items; steps = m.steps; broken = m.broken } };

    ghost invariant = { λ m. IsRunning m.rules.now m.ask m.kept.items m.steps m.broken m.asked.items m.memory m.points m.present };
}

impl<'r> Machine<'r> {
    /// A machine that made no step, with a tree for each kept name of its ask. It borrows the rules, and keeps copies of the
    /// ask and of the trees. Linear in these. The error is out of memory alone.
    pub fn start(
        alloc: Global,
        rules: &'r RuleBase,
        ask: &Ask,
        kept: &[Tree],
    ) -> Result<Machine<'r>, NoMemory>
        requires ask { IsAsk ask.now }
        requires kept { length kept.now ≡ length ask.now.kept }
        ensures { IfOk result (λ machine. machine ≡ started_machine rules.now ask.now kept.now) }
    {
        let own_ask = copy_ask(alloc, ask)?;
        let own_trees = copy_trees(alloc, kept)?;
        let begun = start_ask(alloc, ask, kept)?;
        let _version = rules.version();
        Ok(Machine {
            alloc,
            rules,
            ask: own_ask,
            kept: own_trees,
            memory: Memory::new(alloc, begun.store, begun.lists),
            points: ChoicePoints::new(alloc),
            registers: Registers::new(alloc),
            asked: begun.vars,
            present: Some(begun.goals),
            steps: 0,
            broken: false,
        })
    }

    /// How many steps were made.
    pub fn steps(&self) -> u64
        ensures { result ≡ self.now.steps }
    {
        self.steps
    }

    /// Whether an alternative is left, as long as the machine has memory. Takes no memory.
    pub fn left(&self) -> bool
        ensures { self.now.broken ≡ false → TellsLeft self.now result }
    {
        match self.present {
            Some(_) => true,
            None => false,
        }
    }

    /// Makes a step, and tells what it says; `Ended` exactly where no alternative is left, which is no step. A machine that
    /// ran out of memory answers so from then on.
    pub fn step(&mut self) -> Result<Stepped, NoMemory>
        requires { self.old.steps < 2 ^ 64 - 1 }
        ensures told { IfOk result (IsMachineStep self.old) }
        ensures new { IfOk result (λ stepped. self.new ≡ stepped_machine self.old stepped) }
        ensures err { OnErr result (self.new ≡ broken_machine self.old) }
        ensures stays { self.old.broken ≡ true → IsErr result }
    {
        if self.broken {
            return Err(NoMemory);
        }
        match self.present {
            None => Ok(Stepped::Ended),
            Some(list) => {
                self.broken = true;
                let (stepped, present) = step_on(
                    self.alloc,
                    self.rules,
                    &mut self.memory,
                    &mut self.points,
                    &mut self.registers,
                    &self.asked,
                    list,
                )?;
                self.present = present;
                self.steps += 1;
                self.broken = false;
                Ok(stepped)
            }
        }
    }

    /// In which way an ask ends now, after so many answers, with a budget of steps and perhaps a number of answers.
    fn ending(&self, budget: u64, most: Option<u64>, answers: u64) -> Option<Ending>
        requires { self.now.broken ≡ false }
        ensures { MatchOption result (GoesOnHere self.now budget most answers) (EndsHere self.now budget most answers) }
    {
        if most == Some(answers) {
            return Some(Ending::Enough);
        }
        if !self.left() {
            return Some(Ending::End);
        }
        if self.steps() == budget {
            return Some(Ending::Stopped);
        }
        None
    }

    /// Makes steps until the ask ends.
    fn run(&mut self, budget: u64, most: Option<u64>) -> Result<Asked, NoMemory>
        requires fresh { self.old.steps ≡ 0 }
        requires whole { self.old.broken ≡ false }
        ensures asked { IfOk result (IsMachineAsk self.old budget most) }
        ensures new { IfOk result (λ asked. self.new ≡ at_steps self.old asked.steps) }
    {
        let mut said = Items::new(self.alloc);
        let mut answers: u64 = 0;
        'steps: loop {
            if let Some(ending) = self.ending(budget, most, answers) {
                return Ok(Asked {
                    said,
                    ending,
                    steps: self.steps(),
                });
            }
            let stepped = self.step()?;
            answers = keep(&mut said, stepped, answers)?;
        }
    }

    /// Runs the ask of a machine that made no step: to its end, or until as many answers came as are wanted, or until the
    /// budget of steps is used up. What the steps said, and the answers, are told in order. Out of memory is answered by
    /// every later step, too.
    pub fn ask(&mut self, budget: u64, most: Option<u64>) -> Result<Asked, NoMemory>
        requires { self.old.steps ≡ 0 }
        ensures asked { IfOk result (IsMachineAsk self.old budget most) }
        ensures new { IfOk result (λ asked. self.new ≡ at_steps self.old asked.steps) }
        ensures err { OnErr result (self.new.broken ≡ true) }
        ensures stays { self.old.broken ≡ true → IsErr result }
    {
        if self.broken {
            return Err(NoMemory);
        }
        match self.run(budget, most) {
            Ok(asked) => Ok(asked),
            Err(error) => {
                self.broken = true;
                Err(error)
            }
        }
    }
}

/// Keeps what a step tells, and counts its answer.
fn keep(said: &mut Sayings, stepped: Stepped, answers: u64) -> Result<u64, NoMemory>
    requires { answers < 2 ^ 64 - 1 }
    ensures said { OnOk result (said.new ≡ told_after said.old stepped) }
    ensures answers { IfOk result (λ count. count ≡ answers_after answers stepped) }
{
    match stepped {
        Stepped::Went => Ok(answers),
        Stepped::Ended => Ok(answers),
        Stepped::Said(canon) => {
            said.push(Stepped::Said(canon))?;
            Ok(answers)
        }
        Stepped::SaidText(string) => {
            said.push(Stepped::SaidText(string))?;
            Ok(answers)
        }
        Stepped::Answered(answer) => {
            said.push(Stepped::Answered(answer))?;
            Ok(answers + 1)
        }
    }
}
