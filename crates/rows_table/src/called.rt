//! Calls of a table, each with its condition tested first: by `apply`, through a door that is lent, and through a full one.
ghost use Rattle.std.specs.Prelude.{List, IsTrue};
ghost use Rattle.mars_table.specs.declared.entry.Entry.{Entry};
ghost use Rattle.mars_table.specs.History.{OwnsFor};

use mars_base::NoMemory;
use mars_table::{Call, Door, FullDoor, Reply, Table, TableDoor};

/// Makes a call of a caller, where it may make it.
pub(crate) fn call_applied(
    table: &mut Table,
    who: u32,
    call: Call,
) -> Result<Option<Reply>, NoMemory> {
    if !table.may_call(who, &call) {
        return Ok(None);
    }
    let reply = table.apply(who, call)?;
    Ok(Some(reply))
}

/// The same through a door that is lent for this one call.
pub(crate) fn call_lent(
    table: &mut Table,
    who: u32,
    call: Call,
) -> Result<Option<Reply>, NoMemory> {
    if !table.may_call(who, &call) {
        return Ok(None);
    }
    let mut door = TableDoor::new(table, who);
    let reply = door.call(call)?;
    Ok(Some(reply))
}

/// Whether a call is on no row, so that a caller without a pin may make it.
fn is_on_no_row(call: &Call) -> bool
    ensures { IsTrue result → (mine : List Entry) → OwnsFor mine call.now }
{
    match call {
        Call::Intern(tree) => {
            let _count = tree.len();
            true
        }
        Call::Sweep => true,
        Call::Count => true,
        _ => false,
    }
}

/// The same through a full door. Nothing is kept there, so that its caller has no pin.
pub(crate) fn call_full(door: &mut FullDoor, call: Call) -> Result<Option<Reply>, NoMemory> {
    if !is_on_no_row(&call) {
        return Ok(None);
    }
    let reply = door.call(call)?;
    Ok(Some(reply))
}
