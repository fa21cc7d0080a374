//! The turn.
ghost use Rattle.std.specs.Prelude.{◌≡◌, true, ◌+◌, ◌-◌, ◌^◌, ◌<◌, [], ◌∷◌, IfOk, Some, vec_len, IsSome};

use crate::listed::Listed;
use crate::pass::Pass;
use crate::pass_view::PassView;
use crate::plays::{Cut, Give, Glue, Look, Take};
use atomic_table::{Seat, Table, TableRule};
use mars_base::NoMemory;
use std::alloc::{AllocError, Global};
use std::marker::PhantomData;
use std::snapshot::Snapshot;
use std::sync::Wait;

/// The rule of the turn, which holds between any two steps of any threads.
pub struct TurnRule<V> {
    value: PhantomData<V>,
}

impl<V: Listed> TableRule<Option<V>, PassView<V::Item>, Snapshot<V>> for TurnRule<V> {
    ghost use Rattle.mars_turn.specs.Rule.{SixParts};
    ghost use Rattle.mars_turn.specs.Steps.{opening_view};

    ghost holds = { λ key. SixParts V.list V.fixed V.by (V.fixed key.value) };

    ghost first = { λ key. opening_view (V.fixed key.value) };
}

/// A value, and the turn to use it: one pass at a time has the value, and gives it back with the same list of items, or
/// with one item more of its own.
///
/// Word 0 of the table is 1 while a pass is inside, and else 0; slot 0 is the value's place. A pass has a seat.
#[derive(Drop)]
pub struct Turn<V: Listed> {
    table: Table<Option<V>, PassView<V::Item>, Snapshot<V>, TurnRule<V>, Global>,
    ghost sized: { (table.shared.table_id.words ≡ 1) × (table.shared.table_id.slots ≡ 1) },
}

/// The one slot, with the value in it.
fn one_slot<V: Drop>(alloc: Global, value: V) -> Result<Vec<Option<V>>, AllocError>
    ensures { IfOk result (λ s. s.items ≡ Some value ∷ []) }
{
    let mut slots = Vec::new(alloc);
    slots.push(Some(value))?;
    Ok(slots)
}

impl<V: Listed> Turn<V> {
    ghost use Rattle.std.specs.Prelude.{◌⊎◌};
    ghost use mathlib.Core.List.{IsPrefix};
    ghost use Rattle.mars_turn.specs.Items.{made_by, AllMade};
    ghost use Rattle.mars_turn.specs.Steps.{opening_view, Enters, Leaves, MayLeave, TakesTurn, after_split, split_off, joined_view, settled_view};
    ghost use Rattle.mars_turn.specs.Views.{IsComplete, IsOutside, CanSplit, OnlyOf};
    ghost use Rattle.mars_turn.specs.Passes.{pass_view, turn_of, turn_id};

    /// A turn for a value without items, and its opening pass, number 0. Out of memory the value is dropped.
    pub fn open(alloc: Global, value: V) -> Result<(Turn<V>, Pass<V>), NoMemory>
        requires { V.list value ≡ [] }
        ensures of { IfOk result (λ r. turn_of r.1 ≡ turn_id r.0) }
        ensures opening { IfOk result (λ r. pass_view r.1 ≡ opening_view (V.fixed value)) }
    {
        let key = Snapshot::of(&value);
        let Ok(slots) = one_slot(alloc, value) else {
            return Err(NoMemory);
        };
        match Table::new(alloc, &[0], slots, &key) {
            Ok((table, seat)) => {
                let pass = Pass {
                    seat,
                    number: 0,
                    joined: 0,
                    made: Some(1),
                    inside: false,
                };
                Ok((Turn { table }, pass))
            }
            Err(_) => Err(NoMemory),
        }
    }

    /// Waits until word 0 is 0, and makes it 1.
    fn take<R: Wait>(&self, rt: &R, seat: &mut Seat<Option<V>, PassView<V::Item>>)
        requires of { seat.old.table_id ≡ turn_id self.now }
        requires outside { (seat.old.me.0.live ≡ true) × IsOutside seat.old.me.0 × (seat.old.me.1 ≡ []) }
        ensures of { seat.new.table_id ≡ seat.old.table_id }
        ensures taken { TakesTurn V.list V.fixed V.by seat.old.me seat.new.me }
    {
        for _ in rt.forever() {
            if self.table.shared.compare_exchange::<Take<V>>(seat, 0, 0, 1) == 0 {
                return;
            }
            self.table.shared.park(rt, 0, 1);
        }
        unreachable!()
    }

    /// Waits until no other pass is inside, and gives the value. Its list begins with all that the pass has seen, and the
    /// items of the pass's number in it are those that the pass made. It may wait for ever.
    pub fn enter<R: Wait>(&self, rt: &R, pass: &mut Pass<V>) -> V
        requires of { turn_of pass.old ≡ turn_id self.now }
        requires outside { IsOutside (pass_view pass.old) }
        ensures of { turn_of pass.new ≡ turn_of pass.old }
        ensures entered { Enters V.list V.fixed V.by (pass_view pass.old) result (pass_view pass.new) }
    {
        self.take(rt, &mut pass.seat);
        let value = self.table.shared.exchange(&mut pass.seat, 0, None);
        pass.inside = true;
        value.unwrap()
    }

    /// Gives the value back, and the turn. The list is as it was found, or has one item more at its end, of this pass: then
    /// the pass has made that item and seen the whole list. It takes no memory and doesn't wait.
    pub fn leave(&self, pass: &mut Pass<V>, value: V)
        requires of { turn_of pass.old ≡ turn_id self.now }
        requires list { MayLeave V.by (pass_view pass.old) (V.list value) }
        requires fixed { V.fixed value ≡ (pass_view pass.old).fixed }
        ensures of { turn_of pass.new ≡ turn_of pass.old }
        ensures left { Leaves V.by (pass_view pass.old) (V.list value) (pass_view pass.new) }
    {
        self.table.shared.exchange(&mut pass.seat, 0, Some(value));
        self.table.shared.swap::<Give<V>>(&mut pass.seat, 0, 0);
        pass.inside = false;
        self.table.shared.wake_one(0);
    }

    /// Makes another pass: the k-th has number k, has made nothing, and has seen what the opening pass has seen. It takes
    /// no memory and doesn't wait.
    pub fn split(&self, first: &mut Pass<V>) -> Pass<V>
        requires of { turn_of first.old ≡ turn_id self.now }
        requires opening { CanSplit (pass_view first.old) }
        ensures of { (turn_of first.new ≡ turn_of first.old) × (turn_of result ≡ turn_of first.old) }
        ensures opening { pass_view first.new ≡ after_split (pass_view first.old) }
        ensures new { pass_view result ≡ split_off (pass_view first.old) }
    {
        let count = first.made.unwrap();
        let seat = self.table.shared.split_seat::<Cut>(&mut first.seat);
        first.made = Some(count + 1);
        Pass {
            seat,
            number: count as u32,
            joined: 0,
            made: None,
            inside: false,
        }
    }

    /// Makes one pass of two: `from` ends in `into`. The pass has the number and the items of `into`, and has seen the
    /// longer of the two lists, which the other begins. It takes no memory and doesn't wait.
    pub fn join(&self, from: Pass<V>, into: Pass<V>) -> Pass<V>
        requires of { (turn_of from ≡ turn_id self.now) × (turn_of into ≡ turn_id self.now) }
        requires outside { IsOutside (pass_view from) × IsOutside (pass_view into) }
        ensures of { turn_of result ≡ turn_of into }
        ensures joined { pass_view result ≡ settled_view (joined_view (pass_view into) (pass_view from)) }
        ensures longer { ((pass_view result).seen ≡ (pass_view into).seen) ⊎ ((pass_view result).seen ≡ (pass_view from).seen) }
        ensures seen { IsPrefix (pass_view into).seen (pass_view result).seen × IsPrefix (pass_view from).seen (pass_view result).seen }
    {
        let Pass {
            seat: other,
            joined: their_joined,
            made: their_made,
            number: _,
            inside: _,
        } = from;
        let Pass {
            mut seat,
            number,
            joined,
            made,
            inside: _,
        } = into;
        self.table.shared.join_seat::<Glue>(&mut seat, other);
        self.table.shared.load::<Look<V>>(&mut seat, 0);
        let made = match made {
            None => their_made,
            Some(count) => Some(count),
        };
        Pass {
            seat,
            number,
            joined: joined + their_joined + 1,
            made,
            inside: false,
        }
    }

    /// The value, once every other pass has been joined into this one. Its list begins with all that the pass has seen; it
    /// has the items that the pass and those that ended in it made, and no others. It takes no memory and doesn't wait.
    pub fn close(self, pass: Pass<V>) -> V
        requires of { turn_of pass ≡ turn_id self }
        requires complete { IsComplete (pass_view pass) }
        ensures fixed { V.fixed result ≡ (pass_view pass).fixed }
        ensures seen { IsPrefix (pass_view pass).seen (V.list result) }
        ensures own { made_by V.by (pass_view pass).number (V.list result) ≡ (pass_view pass).mine }
        ensures ended { AllMade V.by (V.list result) (pass_view pass).ended }
        ensures no_others { OnlyOf V.by (pass_view pass) (V.list result) }
    {
        let Turn { table } = self;
        let Pass {
            seat,
            number: _,
            joined: _,
            made: _,
            inside: _,
        } = pass;
        let mut closed = table.close_with(seat);
        let value = closed.take(0);
        closed.free();
        value.unwrap()
    }
}
