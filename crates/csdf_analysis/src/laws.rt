//! Laws of periods: what holds of every graph's schedules and capacities. The calls do nothing.

ghost use Rattle.csdf_analysis.specs.Laws.{GreaterCapacitiesComplete, FullCapacitySuffices, EveryScheduleGoesOn};
ghost use Rattle.csdf_analysis.specs.Alone.{OwnCapacitiesAreNeeded};
ghost use Rattle.csdf_analysis.specs.Continued.{ContinuedIsAccepted};
ghost use Rattle.csdf_analysis.specs.Room.{RoomHoldsPeriods, RoomIsAccepted, RoomIsRefused};

/// A law: greater capacities complete a period where smaller ones do.
pub fn greater_capacities_complete()
    ensures { GreaterCapacitiesComplete }
{}

/// A law: no capacity above the full one, the initial tokens and all that the producer puts in
/// within a period, is needed.
pub fn full_capacity_suffices()
    ensures { FullCapacitySuffices }
{}

/// A law: where capacities complete a period, every schedule under them with no actor above its
/// firings of the period can be continued to these. So one run decides whether they do.
pub fn every_schedule_goes_on()
    ensures { EveryScheduleGoesOn }
{}

/// A law: an accepted graph that is given room for a period or more is accepted too, with the same
/// vector and with capacities that are no smaller; it is refused for want of memory alone.
pub fn room_is_accepted()
    ensures { RoomIsAccepted }
{}

/// A law: a graph that is given room for a period or more is refused only for what it is refused for
/// without.
pub fn room_is_refused()
    ensures { RoomIsRefused }
{}

/// A law: room for so many periods that is not cut to 65,535 is never too little within them: a firing
/// of these periods leaves no more in the channel than it.
pub fn room_holds_periods()
    ensures { RoomHoldsPeriods }
{}

/// A law: capacities that complete a period are nowhere below the channels' own least ones, which
/// are those of graphs where a channel is the only one.
pub fn own_capacities_are_needed()
    ensures { OwnCapacitiesAreNeeded }
{}

/// A law: an accepted graph whose channels begin with as many other tokens is accepted too, with the same
/// vector and the same capacities.
pub fn continued_is_accepted()
    ensures { ContinuedIsAccepted }
{}
