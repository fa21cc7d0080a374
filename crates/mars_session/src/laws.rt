//! Laws of sessions, whole runs and schedules.
ghost use Rattle.mars_session.specs.DoorLaws.{EventIsOfTheWorld};
ghost use Rattle.mars_session.specs.SessionLaws.{EventIsOne, AloneIsOne, AloneGrows, CallsAreAllowed, TextsGrow, AskWritesItsText, EventsAdvance};
ghost use Rattle.mars_session.specs.SessionRows.{SessionRows};
ghost use Rattle.mars_session.specs.Together.{EventsKeepEntries, TogetherTheyAreWhole, UncutIsWhole};
ghost use Rattle.mars_session.specs.WorldLaws.{PartsAreNumbered, HistoryIsASchedule, ScheduleIsWhole, OrderIsOne, ScheduleIsOne, WholeGoesOn};

/// An event has one result, by the replies.
pub fn event_is_one()
    ensures { EventIsOne }
{}

/// The session alone has one text and one list of calls.
pub fn alone_is_one()
    ensures { AloneIsOne }
{}

/// With more replies the text of the session alone begins with its text with fewer.
pub fn alone_grows()
    ensures { AloneGrows }
{}

/// What a session asks of the table it may ask.
pub fn calls_are_allowed()
    ensures { CallsAreAllowed }
{}

/// The text of a session with what the present ask wrote so far only grows.
pub fn texts_grow()
    ensures { TextsGrow }
{}

/// The events of an ask write the ask's text.
pub fn ask_writes_its_text()
    ensures { AskWritesItsText }
{}

/// Each event does a command, or a step more of its ask, which is less than the budget.
pub fn events_advance()
    ensures { EventsAdvance }
{}

/// The sessions of an input are numbered in order.
pub fn sessions_are_numbered()
    ensures { PartsAreNumbered }
{}

/// A whole run is the run of a schedule, which its history tells.
pub fn history_is_a_schedule()
    ensures { HistoryIsASchedule }
{}

/// The run of a schedule is whole.
pub fn schedule_is_whole()
    ensures { ScheduleIsWhole }
{}

/// One order belongs to a history.
pub fn order_is_one()
    ensures { OrderIsOne }
{}

/// One history and one text come of a schedule.
pub fn schedule_is_one()
    ensures { ScheduleIsOne }
{}

/// At each entry of a whole run its session wants the call and the table gives the reply.
pub fn whole_goes_on()
    ensures { WholeGoesOn }
{}

/// Each event over a door keeps what a session's point says of its entries.
pub fn events_keep_entries()
    ensures { EventsKeepEntries }
{}

/// An event of a session over the table's own door is an event of the world.
pub fn event_is_of_the_world()
    ensures { EventIsOfTheWorld }
{}

/// What sessions did, each over a door of its own, is a whole run, with those cut that were cut.
pub fn together_they_are_whole()
    ensures { TogetherTheyAreWhole }
{}

/// Where no session was cut a run is whole.
pub fn uncut_is_whole()
    ensures { UncutIsWhole }
{}

/// Worked rows: scripts, the replies that they get, and what the session alone writes.
pub fn session_rows()
    ensures { SessionRows }
{}
