//! The choice points, a stack.
ghost use Rattle.std.specs.Prelude.{◌≡◌, ◌-◌, ◌<◌, ◌∷◌, [], length, drop, OnOk, OnErr, MatchOption};
ghost use Rattle.mars_goals.specs.Points.{tried_to};

use crate::choice::Choice;
use mars_base::NoMemory;
use std::alloc::Global;
use std::marker::Model;

/// The choice points, seen as a list, the latest first. `push` alone takes memory.
#[derive(Drop)]
pub struct ChoicePoints {
    /// The earliest is first.
    stack: Vec<Choice>,
}

impl Model for ChoicePoints {
    ghost use Rattle.std.specs.Prelude.{List, reverse};
    ghost use Rattle.mars_goals.specs.declared.choice.Choice.{Choice};

    ghost Value = { List Choice };

    ghost view = { λ points. reverse points.stack.items };
}

impl ChoicePoints {
    /// No choice point.
    pub fn new(alloc: Global) -> ChoicePoints
        ensures { result ≡ [] }
    {
        ChoicePoints {
            stack: Vec::new(alloc),
        }
    }

    /// How many there are. A cut that keeps so many takes none away.
    #[inline]
    pub fn len(&self) -> usize
        ensures { result ≡ length self.now }
    {
        self.stack.len()
    }

    /// A new latest one. Out of memory leaves all as before.
    #[inline]
    pub fn push(&mut self, choice: Choice) -> Result<(), NoMemory>
        ensures ok { OnOk result (self.new ≡ choice ∷ self.old) }
        ensures err { OnErr result (self.new ≡ self.old) }
    {
        self.stack.push(choice)?;
        Ok(())
    }

    /// The latest one, `None` exactly where there is none.
    #[inline]
    pub fn top(&self) -> Option<Choice>
        ensures { MatchOption result (self.now ≡ []) (λ choice. self.now ≡ choice ∷ drop 1 self.now) }
    {
        self.stack.last().copied()
    }

    /// Takes the latest one, `None` exactly where there is none.
    #[inline]
    pub fn pop(&mut self) -> Option<Choice>
        ensures { MatchOption result ((self.old ≡ []) × (self.new ≡ [])) (λ choice. self.old ≡ choice ∷ self.new) }
    {
        self.stack.pop()
    }

    /// Leaves the rules before a place out at the latest one: they were tried. Where there is none, nothing is done.
    #[inline]
    pub fn try_from(&mut self, rule: usize)
        ensures { self.new ≡ tried_to rule self.old }
    {
        let len = self.stack.len();
        if len > 0 {
            let choice = self.stack[len - 1];
            self.stack[len - 1] = Choice {
                from: rule,
                ..choice
            };
        }
    }

    /// Keeps the earliest ones, so many as are asked for.
    #[inline]
    pub fn cut(&mut self, kept: usize)
        ensures { self.new ≡ drop (length self.old - kept) self.old }
    {
        self.stack.truncate(kept);
    }
}
