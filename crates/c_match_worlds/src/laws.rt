//! Laws of matching worlds: starts, stores, events and calls keep C and forests in step.
ghost use Rattle.c_match_worlds.specs.Starts.{StartsMatch};
ghost use Rattle.c_match_worlds.specs.Laws.{BeginningHides, CallsClose, CallsLeave, CallsMakeHomes, CallsOpen, CopiesArePassed, EventsKeep, HomesMayHold, InputKeeps, LocalsBegin, OthersBegin, OwnObjectsStand, PrivateStoresKeep, StoresKeep};

/// The worlds with which a run of C and one of forests begin match, where the unit's objects do.
pub fn runs_begin_alike()
    ensures { StartsMatch }
{}

/// A world of forests that stands for one of C does so still behind stores of C, and behind changes of what holds nothing of C; and the
/// addresses of the unit's own objects stand for C's.
pub fn stores_keep()
    ensures objects { StoresKeep }
    ensures private { PrivateStoresKeep }
    ensures own { OwnObjectsStand }
{}

/// And where something is seen, or input is read.
pub fn events_keep()
    ensures events { EventsKeep }
    ensures input { InputKeeps }
{}

/// And where a call is opened, its objects begin, and it is over.
pub fn calls_keep()
    ensures opened { CallsOpen }
    ensures homes { CallsMakeHomes }
    ensures hold { HomesMayHold }
    ensures locals { LocalsBegin }
    ensures others { OthersBegin }
    ensures hidden { BeginningHides }
    ensures passed { CopiesArePassed }
    ensures closed { CallsClose }
    ensures left { CallsLeave }
{}
