//! Laws of worlds.
ghost use Rattle.mars_replay.specs.WorldEventLaws.{WorldFollowsEvents, OthersCutNone, HistoriesAreLegal, WorldTextsGrow, WorldRunIsWhole};

/// After events of which none was out of memory the world is that of the schedule's events.
pub fn world_follows_events()
    ensures { WorldFollowsEvents }
{}

/// Sessions are cut by events that are out of memory alone.
pub fn others_cut_none()
    ensures { OthersCutNone }
{}

/// After any events the history is legal.
pub fn histories_are_legal()
    ensures { HistoriesAreLegal }
{}

/// The text of a session that isn't cut only grows.
pub fn world_texts_grow()
    ensures { WorldTextsGrow }
{}

/// A run after events is that of the schedule with those events first.
pub fn world_run_is_whole()
    ensures { WorldRunIsWhole }
{}
