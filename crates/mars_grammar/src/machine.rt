// The machine: one loop over the tokens, with what is due.
ghost use Rattle.std.specs.Prelude.{◌≡◌, List, [], ◌∷◌, ◌++◌, ◌<◌, ◌≤◌, length, Option, Some, None, IfOk, IfErr, OnOk, true};
ghost use Rattle.std.specs.Option.{option_copied};
ghost use Rattle.mars_grammar.specs.FormTable.{said_events, leaves_in};
ghost use Rattle.mars_grammar.specs.Testing.{starts};
ghost use Rattle.mars_grammar.specs.Building.{performs};
ghost use Rattle.mars_grammar.specs.MachineInside.{token_step, closed, Steps, Closes};
ghost use Rattle.mars_grammar.specs.Refusing.{IsMade, HasNoFault, IsRefused};

use crate::Refusal;
use crate::due::Due;
use crate::grammar::{Builder, Grammar};
use mars_base::NoMemory;
use std::alloc::Global;

impl<L> From<NoMemory> for Refusal<L> {
    ghost use Rattle.mars_grammar.specs.declared.Refusal.TheVariants as refusal;

    ghost from_gives = { λ _ e. e ≡ refusal.NoMemory };

    fn from(_: NoMemory) -> Refusal<L> {
        Refusal::NoMemory
    }
}

/// What a builder is told, one after the other.
fn say_all<G: Grammar, B: Builder<G>>(
    builder: &mut B,
    actions: &[G::Action],
) -> Result<(), NoMemory>
    ensures { OnOk result (B.view builder.new ≡ performs B.build (said_events actions.now) (B.view builder.old)) }
{
    for action in actions {
        builder.say(*action)?;
    }
    Ok(())
}

/// What is said_events where a symbol is left out in this mode, if it can be.
fn leaves_in<G: Grammar>(mode: G::Mode, symbol: G::Symbol) -> Option<&'static [G::Action]>
    ensures { option_copied result ≡ leaves_in G.table mode symbol }
{
    if G::stays(mode, symbol) {
        None
    } else {
        G::leaves(symbol)
    }
}

/// Goes over one token; `false` where nothing that is due takes it.
fn advance<G: Grammar, B: Builder<G>>(
    due: &mut Due<G::Symbol>,
    builder: &mut B,
    mode: G::Mode,
    token: G::Token,
) -> Result<bool, NoMemory>
    ensures { IfOk result (λ b. Steps b (token_step G.table B.build token mode due.old (B.view builder.old))
        (G.table.pass (G.table.kind token) mode) due.new (B.view builder.new)) }
{
    while let Some(symbol) = due.next() {
        if let Some(form) = G::takes(symbol, G::kind(token)) {
            builder.read(symbol, token)?;
            due.push(form)?;
            return Ok(true);
        }
        let Some(told) = leaves_in::<G>(mode, symbol) else {
            return Ok(false);
        };
        say_all::<G, B>(builder, told)?;
    }
    Ok(false)
}

/// Leaves out all that is due, if that can be.
fn close<G: Grammar, B: Builder<G>>(
    due: &mut Due<G::Symbol>,
    builder: &mut B,
    mode: G::Mode,
) -> Result<bool, NoMemory>
    ensures { IfOk result (λ b. Closes b (closed G.table B.build mode due.old (B.view builder.old)) (B.view builder.new)) }
{
    while let Some(symbol) = due.next() {
        let Some(told) = leaves_in::<G>(mode, symbol) else {
            return Ok(false);
        };
        say_all::<G, B>(builder, told)?;
    }
    Ok(true)
}

/// Reads a whole text, and tells a builder.
pub fn parse<G: Grammar, B: Builder<G>>(
    alloc: Global,
    start: &[G::Symbol],
    tokens: &[G::Token],
    builder: &mut B,
) -> Result<(), Refusal<B::Limit>>
    requires { starts G.table G.test start.now ≡ true }
    ensures made { OnOk result (IsMade G.table B.build start.now (B.view builder.old) tokens.now (B.view builder.new)) }
    ensures within { OnOk result (HasNoFault G.table B.build start.now (B.view builder.old) tokens.now) }
    ensures refused { IfErr result (λ e. IsRefused G.table B.build start.now (B.view builder.old) tokens.now e) }
{
    let mut due = Due::new(alloc, start);
    let mut mode = G::free();
    let mut rest = tokens;
    while let Some((next, after)) = rest.split_first() {
        if !advance::<G, B>(&mut due, builder, mode, *next)? {
            return Err(Refusal::Syntax { left: rest.len() });
        }
        if let Some(limit) = builder.refuses() {
            return Err(Refusal::Limit {
                limit,
                left: rest.len(),
            });
        }
        mode = G::pass(G::kind(*next), mode);
        rest = after;
    }
    if close::<G, B>(&mut due, builder, mode)? {
        Ok(())
    } else {
        Err(Refusal::Syntax { left: 0 })
    }
}
