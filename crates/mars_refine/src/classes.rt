//! A partition of nodes into classes that are split by marks, the smaller part under a new number (Hopcroft 1971).
//!
//! A split costs time linear in the marks. Where memory runs out, the classes hold together and are dropped by the caller.
ghost use Rattle.std.specs.Prelude.{◌≡◌, ◌↔◌, ◌⊎◌, ◌<◌, ◌≤◌, ◌+◌, ◌-◌, [], ℕ, true, false, length, slice_set, IsTrue, IfOk, OnOk, OnErr, All, Contains, replicate, slice_range};
ghost use Rattle.mars_base.specs.Lists.{AreDistinct};
ghost use Rattle.mars_refine.specs.Classes.{Parted, AreMembers, IsAlone, IsMarking, IsSplit};
ghost use Rattle.mars_refine.specs.ClassesInside.{IsPartedInside, at_place, AreTouched, parted_of, SplitsOne, span_of};
ghost use Rattle.mars_refine.specs.Refine.{class_of};

use crate::writes::write_all;
use mars_base::{NoMemory, NumberPart, Numbers};
use std::alloc::Global;
use std::marker::Model;

/// Classes of nodes. Each node is in one class; classes are numbered from 0 and none is without a node.
#[derive(Drop)]
pub struct Classes {
    parts: Parts,
    touched: Numbers,
}

/// The nodes of a class are next to each other in `order`, the marked ones first: a node is marked where its place is
/// before the middle of its class.
#[derive(Drop)]
struct Parts {
    of: Numbers,
    order: Numbers,
    place: Numbers,
    spans: Vec<Span>,
}

/// The places of the nodes of a class: the marked ones from `start` to `middle`, the others from there to `end`.
#[derive(Clone, Copy)]
struct Span {
    start: usize,
    middle: usize,
    end: usize,
}

impl Model for Classes {
    ghost use Rattle.mars_refine.specs.Classes.{Parted};
    ghost use Rattle.mars_refine.specs.ClassesInside.{IsPartedInside, AreTouched, parted_of};

    ghost Value = { Parted };

    ghost view = { λ c. parted_of c.parts };

    ghost invariant = { λ c. IsPartedInside c.parts × AreTouched (parted_of c.parts) c.touched.items };
}

impl Classes {
    /// All nodes in one class.
    pub(crate) fn new(alloc: Global, count: usize) -> Result<Classes, NoMemory>
        ensures of { IfOk result (λ c. c.of ≡ replicate count 0) }
        ensures marked { IfOk result (λ c. c.marked ≡ replicate count false) }
    {
        let parts = all_in_one(alloc, count)?;
        Ok(Classes {
            parts,
            touched: Numbers::new(alloc, count),
        })
    }

    /// How many classes there are, at most as many as nodes: each node's class is a number below it.
    pub fn count(&self) -> usize
        ensures count { result ≡ self.now.count }
        ensures below { (u : ℕ) → u < length self.now.of → class_of self.now.of u < result }
        ensures few { result ≤ length self.now.of }
    {
        self.parts.spans.len()
    }

    /// The number of a node's class.
    pub fn of(&self, node: usize) -> usize
        requires { node < length self.now.of }
        ensures class { result ≡ class_of self.now.of node }
        ensures below { result < self.now.count }
    {
        self.parts.of.get(node)
    }

    /// The nodes of a class, each once, in no order that is promised. There is at least one.
    pub fn members(&self, class: usize) -> NumberPart<'_>
        requires { class < self.now.count }
        ensures members { AreMembers self.now.of class result }
        ensures once { AreDistinct result }
        ensures some { 0 < length result }
    {
        let span = self.parts.spans[class];
        self.parts.order.part(span.start, span.end)
    }

    /// Marks a node, in constant time. One that is alone in its class needs no mark, since no split parts it.
    pub(crate) fn mark(&mut self, node: usize) -> Result<(), NoMemory>
        requires { node < length self.old.of }
        ensures of { self.new.of ≡ self.old.of }
        ensures count { self.new.count ≡ self.old.count }
        ensures sized { length self.new.marked ≡ length self.new.of }
        ensures marked { OnOk result (IsMarking self.old node self.new) }
    {
        if is_alone(&self.parts, node) {
            return Ok(());
        }
        touch(&mut self.touched, &self.parts, node)?;
        move_front(&mut self.parts, node);
        Ok(())
    }

    /// Parts the marked nodes of each class from the others, and removes all marks, in time linear in the marks.
    pub(crate) fn split(&mut self) -> Result<(), NoMemory>
        ensures { OnOk result (IsSplit self.old self.new) }
    {
        split_each(&mut self.parts, &self.touched)?;
        self.touched.clear();
        Ok(())
    }
}

/// All numbers below a count, in order.
fn numbers_below(alloc: Global, count: usize) -> Result<Numbers, NoMemory>
    ensures size { IfOk result (λ all. length all.items ≡ count) }
    ensures most { IfOk result (λ all. count ≤ all.most) }
    ensures are { IfOk result (λ all. (i : ℕ) → i < count → at_place all.items i ≡ i) }
{
    let mut all = Numbers::new(alloc, count);
    for number in 0..count {
        all.push(number)?;
    }
    Ok(all)
}

/// All nodes in one class, or no class where there is no node.
fn all_in_one(alloc: Global, count: usize) -> Result<Parts, NoMemory>
    ensures parted { IfOk result (λ p. IsPartedInside p) }
    ensures of { IfOk result (λ p. p.of.items ≡ replicate count 0) }
    ensures marked { IfOk result (λ p. (parted_of p).marked ≡ replicate count false) }
{
    let mut spans = Vec::new(alloc);
    if count > 0 {
        spans.push(Span {
            start: 0,
            middle: 0,
            end: count,
        })?;
    }
    Ok(Parts {
        of: Numbers::zeros(alloc, count, count)?,
        order: numbers_below(alloc, count)?,
        place: numbers_below(alloc, count)?,
        spans,
    })
}

/// Whether a node is the only one of its class.
fn is_alone(parts: &Parts, node: usize) -> bool
    requires parted { IsPartedInside parts.now }
    requires node_in { node < length parts.now.of.items }
    ensures { IsTrue result ↔ IsAlone parts.now.of.items node }
{
    let class = parts.of.get(node);
    let span = parts.spans[class];
    span.end - span.start == 1
}

/// Puts the class of a node into the list, where it isn't there for another node.
fn touch(touched: &mut Numbers, parts: &Parts, node: usize) -> Result<(), NoMemory>
    requires parted { IsPartedInside parts.now }
    requires node_in { node < length parts.now.of.items }
    requires touched { AreTouched (parted_of parts.now) touched.old.items }
    ensures touched { AreTouched (parted_of parts.now) touched.new.items }
    ensures there { OnOk result (Contains touched.new.items (class_of parts.now.of.items node)) }
{
    let class = parts.of.get(node);
    let span = parts.spans[class];
    if span.start == span.middle {
        touched.push(class)?;
    }
    Ok(())
}

/// The span with one marked node more.
fn one_marked_more(span: Span) -> Span
    requires { span.middle < span.end }
    ensures { result ≡ record { start = span.start; middle = span.middle + 1; end = span.end } }
{
    let Span { start, middle, end } = span;
    Span {
        start,
        middle: middle + 1,
        end,
    }
}

/// Moves a node towards the front of its class, after those that are marked, and marks it.
fn move_front(parts: &mut Parts, node: usize)
    requires parted { IsPartedInside parts.old }
    requires node_in { node < length parts.old.of.items }
    ensures parted { IsPartedInside parts.new }
    ensures of { parts.new.of.items ≡ parts.old.of.items }
    ensures count { length parts.new.spans.items ≡ length parts.old.spans.items }
    ensures marked { (parted_of parts.new).marked ≡ slice_set (parted_of parts.old).marked node true }
{
    let class = parts.of.get(node);
    let span = parts.spans[class];
    let middle = span.middle;
    let at = parts.place.get(node);
    if at < middle {
        return;
    }
    let other = parts.order.get(middle);
    parts.order.set(at, other);
    parts.place.set(other, at);
    parts.order.set(middle, node);
    parts.place.set(node, middle);
    parts.spans[class] = one_marked_more(span);
}

/// The two, the shorter one first.
fn smaller_first(front: Span, back: Span) -> (Span, Span)
    requires front_is { front.start ≤ front.end }
    requires back_is { back.start ≤ back.end }
    ensures both { (result ≡ (front, back)) ⊎ (result ≡ (back, front)) }
    ensures shorter { result.0.end - result.0.start ≤ result.1.end - result.1.start }
{
    if front.end - front.start <= back.end - back.start {
        (front, back)
    } else {
        (back, front)
    }
}

/// Parts the marked nodes of a class from the others, where there are some of each. The smaller part gets the new number.
fn part_class(parts: &mut Parts, class: usize) -> Result<(), NoMemory>
    requires parted { IsPartedInside parts.old }
    requires class_in { class < length parts.old.spans.items }
    requires some_marked { (span_of parts.old.spans.items class).start < (span_of parts.old.spans.items class).middle }
    requires some_others { (span_of parts.old.spans.items class).middle < (span_of parts.old.spans.items class).end }
    ensures parted { IsPartedInside parts.new }
    ensures ok { OnOk result (SplitsOne class (parted_of parts.old) (parted_of parts.new)) }
    ensures err { OnErr result (parted_of parts.new ≡ parted_of parts.old) }
{
    let Span { start, middle, end } = parts.spans[class];
    let new = parts.spans.len();
    let front = Span {
        start,
        middle: start,
        end: middle,
    };
    let back = Span {
        start: middle,
        middle,
        end,
    };
    let (less, more) = smaller_first(front, back);
    parts.spans.push(less)?;
    parts.spans[class] = more;
    write_all(&mut parts.of, &parts.order.part(less.start, less.end), new);
    Ok(())
}

/// Removes the marks of a class of which all nodes are marked or none.
fn unmark_class(parts: &mut Parts, class: usize)
    requires parted { IsPartedInside parts.old }
    requires class_in { class < length parts.old.spans.items }
    requires whole { ((span_of parts.old.spans.items class).middle ≤ (span_of parts.old.spans.items class).start) ⊎ ((span_of parts.old.spans.items class).end ≤ (span_of parts.old.spans.items class).middle) }
    ensures parted { IsPartedInside parts.new }
    ensures ok { SplitsOne class (parted_of parts.old) (parted_of parts.new) }
{
    let Span {
        start,
        middle: _,
        end,
    } = parts.spans[class];
    parts.spans[class] = Span {
        start,
        middle: start,
        end,
    };
}

/// Parts the marked nodes of a class from the others.
fn split_class(parts: &mut Parts, class: usize) -> Result<(), NoMemory>
    requires parted { IsPartedInside parts.old }
    requires class_in { class < length parts.old.spans.items }
    ensures parted { IsPartedInside parts.new }
    ensures ok { OnOk result (SplitsOne class (parted_of parts.old) (parted_of parts.new)) }
    ensures err { OnErr result (parted_of parts.new ≡ parted_of parts.old) }
{
    let span = parts.spans[class];
    if span.start >= span.middle || span.middle >= span.end {
        unmark_class(parts, class);
        return Ok(());
    }
    part_class(parts, class)
}

/// Parts the classes of a list, one after another.
fn split_each(parts: &mut Parts, touched: &Numbers) -> Result<(), NoMemory>
    requires parted { IsPartedInside parts.old }
    requires touched { AreTouched (parted_of parts.old) touched.now.items }
    ensures parted { IsPartedInside parts.new }
    ensures ok { OnOk result (IsSplit (parted_of parts.old) (parted_of parts.new)) }
    ensures touched { OnErr result (AreTouched (parted_of parts.new) touched.now.items) }
{
    for index in 0..touched.len() {
        split_class(parts, touched.get(index))?;
    }
    Ok(())
}
