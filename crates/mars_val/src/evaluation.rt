//! The number of a term, found at once or along a path of open terms.
ghost use Rattle.std.specs.Prelude.{◌≡◌, ◌-◌, ◌<◌, ◌++◌, ◌∷◌, [], length, take, slice_set, Contains, Some, None, IfOk, OnOk};
ghost use Rattle.mars_reach.specs.Order.{AreDistinct};
ghost use Rattle.mars_val.specs.Number.{IsNumberOf};
ghost use Rattle.mars_val.specs.NumberInside.{IsWork, IsStepped};

use crate::direct::direct;
use crate::operand::{Next, next_of};
use crate::terms::Terms;
use mars_base::NoMemory;
use mars_store::{NodeId, Store};
use std::alloc::Global;

/// The terms that were met, with the numbers that are known, and the places of those that are open, each an operand of
/// the one before it.
#[derive(Drop)]
struct Work {
    terms: Terms,
    values: Vec<Option<i64>>,
    path: Vec<usize>,
}

/// The number of a node's tree: an integer's own, or the result of `add`, `sub`, `mul`, `div` and `mod` where both
/// operands have numbers and it is in `i64`. `None` where it has none, as an infinite tree of operations. Linear in the
/// nodes that it meets, and in their links. The number of an integer, of an operation over two integers, or of one over
/// operations on integers takes no memory.
pub fn eval(alloc: Global, store: &Store, node: NodeId) -> Result<Option<i64>, NoMemory>
    requires { node < length store.now.nodes }
    ensures { IfOk result (λ number. IsNumberOf store.now node number) }
{
    match direct(store, node) {
        Some(number) => Ok(Some(number)),
        None => eval_path(alloc, store, node),
    }
}

/// The number of a node's tree, found along a path of open terms.
fn eval_path(alloc: Global, store: &Store, node: NodeId) -> Result<Option<i64>, NoMemory>
    requires { node < length store.now.nodes }
    ensures { IfOk result (λ number. IsNumberOf store.now node number) }
{
    let mut work = Work {
        terms: Terms::new(alloc),
        values: Vec::new(alloc),
        path: Vec::new(alloc),
    };
    open(&mut work, store.deref(node))?;
    while !work.path.is_empty() {
        if !step(store, &mut work)? {
            return Ok(None);
        }
    }
    Ok(work.values[0])
}

/// Looks at the last term of the path: false where it has no number.
fn step(store: &Store, work: &mut Work) -> Result<bool, NoMemory>
    requires work { IsWork store.now work.old.terms work.old.values.items work.old.path.items }
    requires more { 0 < length work.old.path.items }
    ensures { IfOk result (λ on. IsStepped store.now work.old.terms work.old.path.items work.new.terms work.new.values.items work.new.path.items on) }
{
    let place = work.path[work.path.len() - 1];
    match next_of(store, &work.terms, &work.values, work.terms.get(place)) {
        Next::Number(number) => {
            close(work, place, number);
            Ok(true)
        }
        Next::Wants(operand) => {
            open(work, operand)?;
            Ok(true)
        }
        Next::Nothing => Ok(false),
    }
}

/// Puts a term at the end of the path.
fn open(work: &mut Work, node: NodeId) -> Result<(), NoMemory>
    requires { Contains work.old.terms node → ⊥ }
    ensures terms { OnOk result (work.new.terms ≡ work.old.terms ++ node ∷ []) }
    ensures values { OnOk result (work.new.values.items ≡ work.old.values.items ++ None ∷ []) }
    ensures path { OnOk result (work.new.path.items ≡ work.old.path.items ++ length work.old.values.items ∷ []) }
    ensures distinct { OnOk result (AreDistinct work.new.terms) }
{
    work.terms.add(node)?;
    work.path.push(work.values.len())?;
    work.values.push(None)?;
    Ok(())
}

/// Notes the number of the last term of the path.
fn close(work: &mut Work, place: usize, number: i64)
    requires place { place < length work.old.values.items }
    requires more { 0 < length work.old.path.items }
    ensures terms { work.new.terms ≡ work.old.terms }
    ensures values { work.new.values.items ≡ slice_set work.old.values.items place (Some number) }
    ensures path { work.new.path.items ≡ take (length work.old.path.items - 1) work.old.path.items }
{
    work.values[place] = Some(number);
    work.path.truncate(work.path.len() - 1);
}
