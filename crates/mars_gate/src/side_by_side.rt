//! The sessions of an input side by side, each in a thread of its own, over one table.
ghost use Rattle.std.specs.Prelude.{◌≡◌, ◌-◌, ◌<◌, ◌^◌, ◌++◌, length, map, IfOk};
ghost use Rattle.std.specs.List.{flat_map, list_any};
ghost use Rattle.mars_scripts.specs.WellFormed.{IsWellFormedInput};
ghost use Rattle.mars_session.specs.Lines.{last_line};
ghost use Rattle.mars_session.specs.SessionPoints.{session_rules};
ghost use Rattle.mars_session.specs.SessionSeen.{session_text};
ghost use Rattle.mars_gate.specs.CutRuns.{GivesCutRunOf};

use crate::run::{Closed, run_jobs};
use mars_base::NoMemory;
use mars_io::Gate;
use mars_replay::{any_cut, push_last_line, push_texts, start_sessions};
use mars_rules::RuleBase;
use mars_script::{Input, Options};
use mars_session::{Ran, Session};
use std::alloc::Global;
use std::sync::Wait;
use std::thread::Threads;

/// The texts of sessions that are through, in order, and the line of the closing calls.
fn tell(alloc: Global, closed: Closed<Session>) -> Result<Ran, NoMemory>
    ensures history { IfOk result (λ ran. ran.history.items ≡ closed.entry.table.history) }
    ensures text { IfOk result (λ ran. ran.text.items ≡ flat_map session_text closed.entry.jobs.items ++ last_line closed.entry.replies.swept closed.entry.replies.rows closed.entry.replies.pins) }
    ensures cut { IfOk result (λ ran. ran.cut ≡ list_any (λ s. s.cut) closed.entry.jobs.items) }
{
    let Closed {
        jobs,
        replies,
        table,
    } = closed;
    let mut text = Vec::new(alloc);
    push_texts(&mut text, jobs.as_slice())?;
    push_last_line(&mut text, replies.swept, replies.rows, replies.pins)?;
    Ok(Ran {
        text,
        history: table.into_history(),
        cut: any_cut(jobs.as_slice()),
    })
}

/// Runs the sessions of an input to their ends side by side, each in a thread of its own where one can be started, over one
/// table, and makes the closing calls. `rules` has one rule base for each session, in order: the input's rules followed by
/// the session's own. Each table call of a session goes through the gate.
///
/// It may wait for ever, as each table call may. A session that is out of memory is cut, beside others that go on. The error
/// is out of memory for the rest: the sessions' beginnings, the passes, the closing calls and the text.
pub fn run_sessions<'r, G: Gate, R: Threads + Wait + Sync>(
    rt: &R,
    alloc: Global,
    input: &'r Input,
    rules: &'r [RuleBase],
    options: Options,
    gate: &G,
) -> Result<Ran, NoMemory>
    requires few { length input.now.sessions < 2 ^ 32 - 2 }
    requires formed { IsWellFormedInput input.now }
    requires rules { rules.now ≡ map (session_rules input.now) input.now.sessions }
    ensures { IfOk result (λ ran. GivesCutRunOf input.now options ran.history.items ran.text.items ran.cut) }
{
    let sessions = start_sessions(alloc, input, rules, options)?;
    let closed = run_jobs(rt, alloc, sessions, options.rows, gate)?;
    let ran = tell(alloc, closed)?;
    Ok(ran)
}
