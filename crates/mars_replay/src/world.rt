//! The world: one table, and the sessions of an input over it.
ghost use Rattle.std.specs.Prelude.{◌≡◌, ◌≢◌, ◌-◌, ◌<◌, true, false, ◌^◌, ◌++◌, ℕ, List, length, map, All, IfOk, replicate};
ghost use Rattle.mars_script.specs.declared.script.Input.{Input};
ghost use Rattle.mars_script.specs.declared.words.Options.{Options};
ghost use Rattle.mars_scripts.specs.WellFormed.{IsWellFormedInput};
ghost use Rattle.mars_table.specs.History.{Legal, of};
ghost use Rattle.mars_session.specs.declared.events.Event.TheVariants.{Done};
ghost use Rattle.mars_session.specs.SessionPoints.{session_rules, session_parts};
ghost use Rattle.mars_session.specs.SessionSeen.{started_session};
ghost use Rattle.mars_session.specs.DoorEvents.{IsAtDoor, FollowsDoor};
ghost use Rattle.mars_replay.specs.WorldSeen.{input_world, IsWorldEvent, AreWorldEvents};
ghost use Rattle.mars_replay.specs.WorldRuns.{IsThroughAt, RunsThrough, ClosesWorld, IsWorldRun, GivesRunOf};
ghost use Rattle.mars_replay.specs.WorldInside.{IsSoundWorld};

use crate::closing::{any_cut, last_count, last_sweep, push_last_line, push_texts};
use mars_base::NoMemory;
use mars_rules::RuleBase;
use mars_script::{Input, Options};
use mars_session::{Event, Ran, Session, event};
use mars_table::{Table, TableDoor};
use std::alloc::Global;
use std::marker::Model;

/// Each session of an input, at its start. `rules` has one rule base for each session, in order: the input's rules followed
/// by the session's own.
pub fn start_sessions<'r>(
    alloc: Global,
    input: &'r Input,
    rules: &'r [RuleBase],
    options: Options,
) -> Result<Vec<Session<'r>>, NoMemory>
    requires few { length input.now.sessions < 2 ^ 32 - 2 }
    requires formed { IsWellFormedInput input.now }
    requires rules { rules.now ≡ map (session_rules input.now) input.now.sessions }
    ensures { IfOk result (λ sessions. sessions.items ≡ map started_session (session_parts input.now options)) }
{
    let mut sessions = Vec::new(alloc);
    for who in 0..input.sessions.len() {
        let session = Session::new(alloc, who as u32, input, &rules[who], options)?;
        sessions.push(session)?;
    }
    Ok(sessions)
}

/// One event of a session over the table.
fn one_event(table: &mut Table, session: &mut Session, who: u32) -> Event
    requires number { session.old.part.who ≡ who }
    requires at { IsAtDoor session.old (of table.old.history who) }
    ensures cap { table.new.cap ≡ table.old.cap }
    ensures legal { Legal table.new.cap table.new.history }
    ensures follows { FollowsDoor true session.old (of table.old.history who) table.old.history result session.new (of table.new.history who) table.new.history }
{
    let mut door = TableDoor::new(table, who);
    let result = event(session, &mut door);
    // what the type of the table keeps of the history
    let _history = table.history();
    result
}

/// Whether there was nothing to do.
fn is_done(event: Event) -> bool
    ensures done { result ≡ true → event ≡ Done }
    ensures other { result ≡ false → event ≢ Done }
{
    matches!(event, Event::Done)
}

/// The sessions of an input, and the table that they share.
#[derive(Drop)]
pub struct World<'r> {
    alloc: Global,
    table: Table,
    sessions: Vec<Session<'r>>,
}

impl<'r> Model for World<'r> {
    ghost use Rattle.mars_term.specs.contracts.term.Term as term;
    ghost use Rattle.std.specs.Coded.{codes};
    ghost use Rattle.mars_replay.specs.WorldSeen.{WorldSeen};
    ghost use Rattle.mars_replay.specs.WorldInside.{IsKeptWorld};

    ghost Value = { WorldSeen };

    ghost coded = { Prim.hlevel (codes, term.the_row.coded) };

    ghost view = { λ w. record { table = w.table; sessions = w.sessions.items } };

    ghost invariant = { λ w. IsKeptWorld (record { table = w.table; sessions = w.sessions.items }) };
}

impl<'r> World<'r> {
    /// The sessions of an input, each at its start, and a table that was never called. `rules` has one rule base for each
    /// session, in order: the input's rules followed by the session's own.
    pub fn new(
        alloc: Global,
        input: &'r Input,
        rules: &'r [RuleBase],
        options: Options,
    ) -> Result<World<'r>, NoMemory>
        requires few { length input.now.sessions < 2 ^ 32 - 2 }
        requires formed { IsWellFormedInput input.now }
        requires rules { rules.now ≡ map (session_rules input.now) input.now.sessions }
        ensures { IfOk result (λ world. world ≡ input_world input.now options) }
    {
        let sessions = start_sessions(alloc, input, rules, options)?;
        let table = Table::new(alloc, options.rows);
        Ok(World {
            alloc,
            table,
            sessions,
        })
    }

    /// How many sessions there are.
    fn count(&self) -> u32
        ensures count { result ≡ length self.now.sessions }
        ensures sound { IsSoundWorld self.now }
    {
        self.sessions.len() as u32
    }

    /// One event of session `who` over the table.
    pub fn event(&mut self, who: u32) -> Event
        requires { who < length self.old.sessions }
        ensures event { IsWorldEvent who result self.old self.new }
        ensures sound { IsSoundWorld self.new }
    {
        let World {
            table,
            sessions,
            ..
        } = self;
        one_event(table, &mut sessions[who as usize], who)
    }

    /// Events of the sessions in this order.
    fn run_in_order(&mut self, order: &[u32])
        requires { All (λ who. who < length self.old.sessions) order.now }
        ensures { AreWorldEvents order.now self.old self.new }
    {
        for who in order {
            let _event = self.event(*who);
        }
    }

    /// Events of a session until it is through.
    fn run_through(&mut self, who: u32)
        requires { who < length self.old.sessions }
        ensures { (events : ℕ) × AreWorldEvents (replicate events who) self.old self.new × IsThroughAt who self.new }
    {
        let _count = self.count();
        'events: loop {
            if is_done(self.event(who)) {
                return;
            }
        }
    }

    /// Each session until it is through, by number.
    fn run_all(&mut self)
        ensures { RunsThrough 0 (length self.old.sessions) self.old self.new }
    {
        let count = self.count();
        for who in 0..count {
            self.run_through(who);
        }
    }

    /// The closing calls of the program, the caller after all sessions, and all texts.
    fn close(self) -> Result<Ran, NoMemory>
        ensures { IfOk result (λ ran. ClosesWorld self.entry ran.history.items ran.text.items ran.cut) }
    {
        let World {
            alloc,
            mut table,
            sessions,
        } = self;
        let who = sessions.len() as u32;
        let gone = last_sweep(&mut table, who)?;
        let (rows, pins) = last_count(&mut table, who)?;
        let mut text = Vec::new(alloc);
        push_texts(&mut text, sessions.as_slice())?;
        push_last_line(&mut text, gone, rows, pins)?;
        Ok(Ran {
            text,
            history: table.into_history(),
            cut: any_cut(sessions.as_slice()),
        })
    }

    /// Events of the sessions in this order, then each session to its end, by number, then the closing calls. Gives the
    /// history of the table and the text.
    pub fn run(self, order: &[u32]) -> Result<Ran, NoMemory>
        requires { All (λ who. who < length self.sessions) order.now }
        ensures runs { IfOk result (λ ran. IsWorldRun self.entry order.now ran.history.items ran.text.items ran.cut) }
        ensures gives { IfOk result (λ ran. (input : Input) (options : Options) (before : List ℕ) → AreWorldEvents before (input_world input options) self.entry → GivesRunOf input options (before ++ order.now) ran.history.items ran.text.items ran.cut) }
    {
        let mut world = self;
        world.run_in_order(order);
        world.run_all();
        world.close()
    }
}
