//! Unification: pairs of nodes are met once, and a pair that was met before is assumed equal, so that cycles end.
ghost use Rattle.std.specs.Prelude.{◌≡◌, ◌≢◌, ℕ, ◌<◌, ◌↔◌, [], length, OnOk, OnErr, IfOk, MatchBool};
ghost use Rattle.mars_tree.specs.Graph.{kids_of};
ghost use Rattle.mars_store.specs.System.{IsSystem, Grows, resolve};
ghost use Rattle.mars_store.specs.Laws.{IsImplied};
ghost use Rattle.mars_unify.specs.MeetingInside.{AreAlike, AreMet, IsMeeting, IsCovered, IsSettled};
ghost use Rattle.mars_unify.specs.Unified.{OnYes, OnNo, Extends, IsSolved, AreApart};

use crate::pairs::Pairs;
use mars_base::NoMemory;
use mars_store::{NodeId, Store};
use std::alloc::Global;

/// Whether two nodes were made equal, and by how many bindings.
#[derive(Clone, Copy, Debug, PartialEq, Eq)]
pub enum Unified {
    Yes { bound: usize },
    No,
}

/// Makes two nodes equal: its answer is no exactly where they have the same tree in no solution. After no, and at
/// `NoMemory`, the store is as before.
///
/// Equations are over finite and infinite trees, after Colmerauer (1982 and 1984), so there is no occurs check.
/// A pair of labelled nodes is met once, so the time is in proportion to the pairs that are met and their kids;
/// among few pairs nothing is hashed, and nothing is allocated for them.
pub fn unify(alloc: Global, store: &mut Store, a: NodeId, b: NodeId) -> Result<Unified, NoMemory>
    requires a_in { a < length store.old.nodes }
    requires b_in { b < length store.old.nodes }
    ensures solved { OnYes result (λ bound. IsSolved store.old store.new a b) }
    ensures extends { OnYes result (λ bound. Extends store.old store.new bound) }
    ensures implied { OnYes result (λ bound. (bound ≡ 0) ↔ IsImplied store.old a b) }
    ensures solvable { OnYes result (λ bound. AreApart store.old a b → ⊥) }
    ensures apart { OnNo result (AreApart store.old a b) }
    ensures kept { OnNo result (store.new ≡ store.old) }
    ensures err { OnErr result (store.new ≡ store.old) }
    ensures nodes { store.new.nodes ≡ store.old.nodes }
    ensures system { IsSystem store.new }
{
    let mark = store.mark();
    match solve(alloc, store, a, b) {
        Ok(true) => Ok(Unified::Yes {
            bound: store.mark().bound - mark.bound,
        }),
        Ok(false) => {
            store.undo_to(mark);
            Ok(Unified::No)
        }
        Err(error) => {
            store.undo_to(mark);
            Err(error)
        }
    }
}

/// Meets a pair, and then the kids of each pair that was met.
fn solve(alloc: Global, store: &mut Store, a: NodeId, b: NodeId) -> Result<bool, NoMemory>
    requires a_in { a < length store.old.nodes }
    requires b_in { b < length store.old.nodes }
    ensures grows { Grows store.old store.new }
    ensures solved { IfOk result (λ fine. MatchBool fine
        (IsSolved store.old store.new a b × (store.new.nodes ≡ store.old.nodes))
        (AreApart store.old a b)) }
{
    let mut pairs = Pairs::new(alloc);
    if !meet(store, &mut pairs, a, b)? {
        return Ok(false);
    }
    let mut next = 0;
    while next < pairs.len() {
        let (x, y) = pairs.get(next);
        if !meet_kids(store, &mut pairs, x, y)? {
            return Ok(false);
        }
        next += 1;
    }
    Ok(true)
}

/// Meets the pairs of kids of two nodes with one label.
fn meet_kids(store: &mut Store, pairs: &mut Pairs, x: NodeId, y: NodeId) -> Result<bool, NoMemory>
    requires alike { AreAlike store.old.nodes (x, y) }
    requires met { AreMet store.old.nodes pairs.old }
    ensures grows { Grows store.old store.new }
    ensures met { IfOk result (λ fine. MatchBool fine
        (IsMeeting store.old store.new pairs.old pairs.new (x, y) × IsSettled store.new pairs.new (x, y))
        (AreApart store.old x y)) }
{
    let arity = arity_of_root(store, x);
    for place in 0..arity {
        if !meet(store, pairs, store.kid(x, place), store.kid(y, place))? {
            return Ok(false);
        }
    }
    Ok(true)
}

/// How many kids the root of a node's tree has, 0 where its label isn't known.
fn arity_of_root(store: &Store, node: NodeId) -> usize
    requires { node < length store.now.nodes }
    ensures arity { result ≡ length (kids_of store.now.nodes (resolve store.now.bound node)) }
    ensures system { IsSystem store.now }
{
    match store.root_label(node) {
        Some(label) => label.arity(),
        None => 0,
    }
}

/// Makes the roots of a pair equal: binds a variable, or compares two labels and leaves the kids to be met.
fn meet(store: &mut Store, pairs: &mut Pairs, a: NodeId, b: NodeId) -> Result<bool, NoMemory>
    requires a_in { a < length store.old.nodes }
    requires b_in { b < length store.old.nodes }
    requires met { AreMet store.old.nodes pairs.old }
    ensures grows { Grows store.old store.new }
    ensures met { IfOk result (λ fine. MatchBool fine
        (IsMeeting store.old store.new pairs.old pairs.new (a, b) × IsCovered store.new pairs.new (a, b))
        (AreApart store.old a b)) }
{
    let x = store.deref(a);
    let y = store.deref(b);
    if x == y {
        return Ok(true);
    }
    match (store.root_label(x), store.root_label(y)) {
        (Some(left), Some(right)) => {
            if left != right {
                return Ok(false);
            }
            if left.arity() > 0 {
                pairs.add((x, y))?;
            }
            Ok(true)
        }
        (None, _) => {
            store.bind(x, y)?;
            Ok(true)
        }
        (Some(_), None) => {
            store.bind(y, x)?;
            Ok(true)
        }
    }
}
