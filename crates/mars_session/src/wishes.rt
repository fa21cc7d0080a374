//! What a command wants of the table, and what a reply makes of it.
ghost use Rattle.std.specs.Prelude.{◌≡◌, ◌++◌, ◌<◌, IfOk, OnOk, List, Some};
ghost use Rattle.mars_session.specs.declared.named.Named.{Named};
ghost use Rattle.mars_session.specs.declared.wishes.Change.TheVariants.{Adds};
ghost use Rattle.mars_session.specs.SessionPoints.{under_name};
ghost use Rattle.mars_session.specs.CommandActs.{TableUse, call_of, keep_line, sweep_line, count_line, use_line, names_with, names_after};
ghost use Rattle.mars_session.specs.WishesInside.{IsWish, changed, IsOutcome};

use crate::lines::{
    push_dropped, push_full, push_kept, push_pinned, push_rows, push_shown, push_swept,
};
use crate::maps::{drop_name, find};
use crate::named::Named;
use mars_base::NoMemory;
use mars_canon::Tree;
use mars_table::{Call, Reply};
use mars_tree::{NameId, Names};
use std::alloc::Global;

/// What a command wants of the table.
#[derive(Drop)]
pub(crate) enum Wish {
    /// To keep a tree under a name.
    Keeps { name: NameId, tree: Tree },
    /// One more pin on what the old name has, for the new one.
    Pins { new: NameId, old: NameId },
    /// To show what a name has.
    Shows { name: NameId },
    /// To drop a name.
    Drops { name: NameId },
    /// A sweep.
    Sweeps,
    /// The counts.
    Counts,
}

/// The call of the table. A name that isn't there can't come.
pub(crate) fn wish_call(names: &[Named], wish: &Wish) -> Result<Call, NoMemory>
    ensures { IfOk result (λ call. (wanted : TableUse) → IsWish names.now wish.now wanted → call ≡ call_of wanted) }
{
    match wish {
        Wish::Keeps { name: _, tree } => Ok(Call::Intern(tree.copy()?)),
        Wish::Pins { new: _, old } => Ok(Call::Pin(find(names, *old).ok_or(NoMemory)?.handle)),
        Wish::Shows { name } => Ok(Call::Show(find(names, *name).ok_or(NoMemory)?.handle)),
        Wish::Drops { name } => Ok(Call::Drop(find(names, *name).ok_or(NoMemory)?.handle)),
        Wish::Sweeps => Ok(Call::Sweep),
        Wish::Counts => Ok(Call::Count),
    }
}

/// Writes the line of a reply to an intern.
fn push_keep(line: &mut Vec<u8>, names: &Names, name: NameId, reply: &Reply) -> Result<(), NoMemory>
    ensures { OnOk result (line.new.items ≡ line.old.items ++ keep_line names.now name reply.now) }
{
    match reply {
        Reply::Kept(handle) => push_kept(line, names, name, *handle),
        Reply::Full { rows, fresh, cap } => push_full(line, *rows, *fresh, *cap),
        _ => Ok(()),
    }
}

/// Writes the line of a reply to a sweep.
fn push_sweep(line: &mut Vec<u8>, reply: &Reply) -> Result<(), NoMemory>
    ensures { OnOk result (line.new.items ≡ line.old.items ++ sweep_line reply.now) }
{
    match reply {
        Reply::Swept(gone) => push_swept(line, *gone),
        _ => Ok(()),
    }
}

/// Writes the line of a reply to a count.
fn push_count(line: &mut Vec<u8>, reply: &Reply) -> Result<(), NoMemory>
    ensures { OnOk result (line.new.items ≡ line.old.items ++ count_line reply.now) }
{
    match reply {
        Reply::Counted { rows, pins } => push_rows(line, *rows, *pins),
        _ => Ok(()),
    }
}

/// Writes the line of a reply: numbers come from it, and trees from the session's own names.
pub(crate) fn push_reply(
    line: &mut Vec<u8>,
    names: &Names,
    map: &[Named],
    wish: &Wish,
    reply: &Reply,
) -> Result<(), NoMemory>
    ensures { OnOk result ((wanted : TableUse) → IsWish map.now wish.now wanted → line.new.items ≡ line.old.items ++ use_line names.now wanted reply.now) }
{
    match wish {
        Wish::Keeps { name, tree: _ } => push_keep(line, names, *name, reply),
        Wish::Pins { new, old } => {
            push_pinned(line, names, *new, find(map, *old).ok_or(NoMemory)?.handle)
        }
        Wish::Shows { name } => {
            push_shown(line, names, *name, &find(map, *name).ok_or(NoMemory)?.tree)
        }
        Wish::Drops { name } => push_dropped(line, names, *name),
        Wish::Sweeps => push_sweep(line, reply),
        Wish::Counts => push_count(line, reply),
    }
}

/// What a reply makes of the names.
#[derive(Drop)]
pub(crate) enum Change {
    Adds(Named),
    Removes(NameId),
    Nothing,
}

/// What a reply to an intern makes of the names.
fn kept_change(name: NameId, tree: Tree, reply: &Reply) -> Change
    ensures { (names : List Named) → names_with names name tree reply.now ≡ changed names result }
{
    match reply {
        Reply::Kept(handle) => Change::Adds(Named {
            name,
            tree,
            handle: *handle,
        }),
        _ => Change::Nothing,
    }
}

/// One more name for what another has.
fn pinned_change(map: &[Named], new: NameId, old: NameId) -> Result<Change, NoMemory>
    ensures { IfOk result (λ change. (n : Named) → under_name map.now old ≡ Some n → change ≡ Adds (record { name = new; tree = n.tree; handle = n.handle })) }
{
    let named = find(map, old).ok_or(NoMemory)?;
    Ok(Change::Adds(Named {
        name: new,
        tree: named.tree.copy()?,
        handle: named.handle,
    }))
}

/// What a reply makes of the names.
pub(crate) fn reply_change(map: &[Named], wish: Wish, reply: &Reply) -> Result<Change, NoMemory>
    ensures { IfOk result (λ change. (wanted : TableUse) → IsWish map.now wish wanted → names_after map.now wanted reply.now ≡ changed map.now change) }
{
    match wish {
        Wish::Keeps { name, tree } => Ok(kept_change(name, tree, reply)),
        Wish::Pins { new, old } => pinned_change(map, new, old),
        Wish::Drops { name } => Ok(Change::Removes(name)),
        Wish::Shows { name: _ } => Ok(Change::Nothing),
        Wish::Sweeps => Ok(Change::Nothing),
        Wish::Counts => Ok(Change::Nothing),
    }
}

/// Changes the names, which have room for one more. Takes no memory.
pub(crate) fn change_names(map: &mut Vec<Named>, change: Change)
    requires { map.old.len < map.old.cap }
    ensures { map.new.items ≡ changed map.old.items change }
{
    match change {
        Change::Adds(named) => map.push_reserved(named),
        Change::Removes(name) => drop_name(map, name),
        Change::Nothing => {}
    }
}

/// What a reply to a wish's call comes to: the call, the line, and what becomes of the names.
#[derive(Drop)]
pub(crate) struct Outcome {
    pub(crate) call: Call,
    pub(crate) line: Vec<u8>,
    pub(crate) change: Change,
}

/// What a reply to a wish's call comes to.
pub(crate) fn outcome_of(
    alloc: Global,
    names: &Names,
    map: &[Named],
    wish: Wish,
    reply: &Reply,
) -> Result<Outcome, NoMemory>
    ensures { IfOk result (λ outcome. (wanted : TableUse) → IsWish map.now wish wanted → IsOutcome names.now map.now wanted reply.now outcome) }
{
    let call = wish_call(map, &wish)?;
    let mut line = Vec::new(alloc);
    push_reply(&mut line, names, map, &wish, reply)?;
    let change = reply_change(map, wish, reply)?;
    Ok(Outcome { call, line, change })
}
