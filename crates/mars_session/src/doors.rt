//! One event of a session over any door.
ghost use Rattle.std.specs.Prelude.{◌≡◌};
ghost use Rattle.mars_session.specs.DoorEvents.{FollowsDoor, IsAtDoor};

use crate::events::{Event, Turned};
use crate::session::Session;
use mars_table::Door;

/// Does one event of a session, over the door of its caller. `Called` comes exactly where the event made a table call and took
/// its reply, `Done` where nothing was left to do, and `Cut` where memory ran out: the session is then cut.
pub fn event<D: Door>(session: &mut Session, door: &mut D) -> Event
    requires number { D.who door.old ≡ session.old.part.who }
    requires mine { IsAtDoor session.old (D.mine door.old) }
    ensures number { D.who door.new ≡ D.who door.old }
    ensures cap { D.cap door.new ≡ D.cap door.old }
    ensures mine { IsAtDoor session.new (D.mine door.new) }
    ensures stays { D.Stays door.old door.new }
    ensures follows { FollowsDoor (D.lone door.old) session.old (D.mine door.old) (D.seen door.old) result session.new (D.mine door.new) (D.seen door.new) }
{
    match session.turn() {
        Err(_) => {
            session.cut();
            Event::Cut
        }
        Ok(Turned::Done) => Event::Done,
        Ok(Turned::Moved) => Event::Moved,
        Ok(Turned::Wants(call)) => match door.call(call) {
            Err(_) => {
                session.cut();
                Event::Cut
            }
            Ok(reply) => match session.take(reply) {
                Err(_) => {
                    session.cut();
                    Event::Cut
                }
                Ok(()) => Event::Called,
            },
        },
    }
}
