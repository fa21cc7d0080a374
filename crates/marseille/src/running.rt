//! The run of an input: its sessions over one table, in threads or one event after the other.
ghost use Rattle.std.specs.Prelude.{◌≡◌, ◌<◌, ◌-◌, ◌^◌, ◌↔◌, IsTrue, All, IfOk, length, map};
ghost use Rattle.mars_scripts.specs.WellFormed.{IsWellFormedInput};
ghost use Rattle.mars_session.specs.SessionPoints.{session_rules};
ghost use Rattle.marseille.specs.Ran.{NamesSessions, IsRunInOrder, IsRunTogether, IsRunAlone};

use mars_base::NoMemory;
use mars_gate::run_sessions;
use mars_io::Gate;
use mars_replay::World;
use mars_rules::RuleBase;
use mars_script::{Input, Options, SessionNumbers};
use mars_session::Ran;
use mars_table::legal_is_live;
use std::alloc::Global;
use std::sync::Wait;
use std::thread::Threads;

/// The rules of each session: those of the input, and then its own.
fn rules_of_sessions(alloc: Global, input: &Input) -> Result<Vec<RuleBase>, NoMemory>
    requires { IsWellFormedInput input.now }
    ensures { IfOk result (λ rules. rules.items ≡ map (session_rules input.now) input.now.sessions) }
{
    let mut rules = Vec::new(alloc);
    for script in input.sessions.as_slice() {
        let own = script.rules.as_slice();
        rules.push(RuleBase::join(alloc, input.rules.as_slice(), own, input.version)?)?;
    }
    Ok(rules)
}

/// Whether each number is that of a session.
fn are_sessions(numbers: &[u32], input: &Input) -> bool
    ensures { IsTrue result ↔ All (λ who. who < length input.now.sessions) numbers.now }
{
    let count = input.sessions.len();
    numbers.iter().all(|who| (*who as usize) < count)
}

/// Whether each number of the order, where there is one, is that of a session.
pub(crate) fn names_sessions(order: &Option<SessionNumbers>, input: &Input) -> bool
    ensures { IsTrue result ↔ NamesSessions order.now input.now }
{
    match order {
        Some(order) => are_sessions(order.as_slice(), input),
        None => true,
    }
}

/// Runs the sessions on this thread, with events in this order first, and then each to its end.
fn run_in_order(
    alloc: Global,
    input: &Input,
    options: Options,
    order: &[u32],
) -> Result<Ran, NoMemory>
    requires few { length input.now.sessions < 2 ^ 32 - 2 }
    requires formed { IsWellFormedInput input.now }
    requires named { All (λ who. who < length input.now.sessions) order.now }
    ensures { IfOk result (λ ran. IsRunInOrder input.now options order.now ran.cut ran.history.items ran.text.items) }
{
    let rules = rules_of_sessions(alloc, input)?;
    let world = World::new(alloc, input, &rules, options)?;
    world.run(order)
}

/// Runs the sessions side by side, each in a thread of its own, with the gate at each of their table calls.
pub(crate) fn run_together<G: Gate, R: Threads + Wait + Sync>(
    rt: &R,
    alloc: Global,
    input: &Input,
    options: Options,
    gate: &G,
) -> Result<Ran, NoMemory>
    requires few { length input.now.sessions < 2 ^ 32 - 2 }
    requires formed { IsWellFormedInput input.now }
    ensures { IfOk result (λ ran. IsRunTogether input.now options ran.cut ran.history.items ran.text.items) }
{
    legal_is_live();
    let rules = rules_of_sessions(alloc, input)?;
    run_sessions(rt, alloc, input, &rules, options, gate)
}

/// Runs the sessions on this thread, with events in this order first where there is one.
pub(crate) fn run_alone(
    alloc: Global,
    input: &Input,
    options: Options,
    order: &Option<SessionNumbers>,
) -> Result<Ran, NoMemory>
    requires few { length input.now.sessions < 2 ^ 32 - 2 }
    requires formed { IsWellFormedInput input.now }
    requires named { NamesSessions order.now input.now }
    ensures { IfOk result (λ ran. IsRunAlone input.now options order.now ran.cut ran.history.items ran.text.items) }
{
    match order {
        Some(order) => run_in_order(alloc, input, options, order.as_slice()),
        None => run_in_order(alloc, input, options, &[]),
    }
}
