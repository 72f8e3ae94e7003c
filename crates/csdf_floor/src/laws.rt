//! Laws of journals over their definitions.

ghost use Rattle.csdf_floor.specs.Laws.{Persists, BeginsNoMore, FinishesAll, Agree, HasSequentialRun, IsOnly, StaysWithin, EndsAsSequential};
ghost use Rattle.csdf_floor.specs.Laws.{QuietIsExhausted, GoesOn, IsHonestAtEach, EndsCounted, StaysCounted, CompletesAll, EndsComplete};
ghost use Rattle.csdf_floor.specs.Laws.{SequentialIsHonest, OrderDoesNotShow};
ghost use Rattle.csdf_floor.specs.Rooms.{CapacitiesDoNotCount, CapacitiesDoNotShow, MoreRoomGoesAsFar, RoomDoesNotShow, StayInStep};
ghost use Rattle.csdf_floor.specs.Periods.{RunsHonestly};
ghost use Rattle.csdf_floor.specs.Endings.{OneEnding, EndsByEnding};
ghost use Rattle.csdf_floor.specs.Most.{BeginsAtMost, StaysWithinMost};
ghost use Rattle.csdf_floor.specs.Continuing.{AskAsAtFirst, CanBePlayedWhole, CompleteIsWhole, GoesOnBySegments, LeavesAsFound, SegmentsAreOneRun};

/// A law: an idle actor that is neither spent, dry, short nor full stays so under the moves of others.
pub fn persists()
    ensures { Persists }
{}

/// A law: an honest journal begins no firing that the sequential run does not finish.
pub fn begins_no_more()
    ensures { BeginsNoMore }
{}

/// A law: where every actor is idle and spent, dry, short or full at its end, an honest journal has
/// finished every firing of the sequential run.
pub fn finishes_all()
    ensures { FinishesAll }
{}

/// A law: two honest journals have the same token at every place of a channel that both have written,
/// whatever the capacities.
pub fn agree()
    ensures { Agree }
{}

/// A law: at any time, of what two honest journals have written to a channel one is a front of the
/// other, and so of what an actor has taken, whatever the capacities.
pub fn stay_in_step()
    ensures { StayInStep }
{}

/// A law: capacities do not show. Two honest journals of the same work that both end with every actor
/// spent have the same streams in all channels and gave each sink the same tokens; and as many tokens
/// were written to each channel, taken from it and left in it.
pub fn capacities_do_not_show()
    ensures show { CapacitiesDoNotShow }
    ensures count { CapacitiesDoNotCount }
{}

/// A law: more room goes as far. A journal that ends with every actor idle and spent, dry, short or
/// full has finished every firing that one with less room has begun, and each sink has been given all
/// that it was given there.
pub fn more_room_goes_as_far()
    ensures { MoreRoomGoesAsFar }
{}

/// A law: there is a sequential run.
pub fn has_sequential_run()
    ensures { HasSequentialRun }
{}

/// A law: there is one sequential run only.
pub fn is_only()
    ensures { IsOnly }
{}

/// A law: an honest journal stays within the sequential run.
pub fn stays_within()
    ensures { StaysWithin }
{}

/// A law: where every actor is idle and spent, dry, short or full at its end, an honest journal ends
/// as the sequential run.
pub fn ends_as_sequential()
    ensures { EndsAsSequential }
{}

/// A law: a quiet end at which every actor is spent, or no firing is refused for the limit on all
/// firings or for want of cells, is one with every actor idle and spent, dry, short or full.
pub fn quiet_is_exhausted()
    ensures { QuietIsExhausted }
{}

/// A law: a journal stays honest by one more honest move.
pub fn goes_on()
    ensures { GoesOn }
{}

/// A law: each front of an honest journal is one, and the move after it is honest there.
pub fn is_honest_at_each()
    ensures { IsHonestAtEach }
{}

/// A law: where every actor is idle and spent, dry, short or full at its end, as many tokens were
/// written to each channel, taken from it and left in it as in the sequential run, and the same actors
/// are spent.
pub fn ends_counted()
    ensures { EndsCounted }
{}

/// A law: no channel was written more or taken from more than in the sequential run.
pub fn stays_counted()
    ensures { StaysCounted }
{}

/// A law: where the files of the sources are long enough for all periods, every actor is spent at the
/// end of the sequential run.
pub fn completes_all()
    ensures { CompletesAll }
{}

/// A law: where, beside, no limit on all firings is given and there are as many cells as the capacities
/// add up to, an honest journal that ends quiet ends with every actor spent.
pub fn ends_complete()
    ensures { EndsComplete }
{}

/// A law: with no limit on all firings and with as many cells as the capacities add up to, the sequential
/// run is itself an honest journal.
pub fn sequential_is_honest()
    ensures { SequentialIsHonest }
{}

/// A law: the order of firings, and so the number of workers, doesn't show in an honest journal that
/// ends quiet.
pub fn order_does_not_show()
    ensures { OrderDoesNotShow }
{}

/// A law: a state has one ending only.
pub fn one_ending()
    ensures { OneEnding }
{}

/// A law: a complete or dry end of an honest journal is that of the sequential run, a stopped or starved
/// one is within it.
pub fn ends_by_ending()
    ensures { EndsByEnding }
{}

/// A law: an accepted graph with as many cells as its capacities add up to, and files that are long
/// enough, computes any number of periods, firing after firing by any schedule of a period: the moves,
/// with the kernels' own values, are an honest journal, and none is refused.
pub fn runs_honestly()
    ensures { RunsHonestly }
{}

/// A law: room does not show. Two runs of one accepted graph that differ in capacities and the number of
/// cells alone, over the same files and for as many periods: at any time, of what each sink was given one
/// is a front of the other; and where both are complete, each sink was given the same, and as many tokens
/// were written to each channel, taken from it and left in it.
pub fn room_does_not_show()
    ensures { RoomDoesNotShow }
{}

/// A law: at the end of a segment that is played whole each channel holds as many tokens as it began
/// with, and the graph that begins with these tokens is accepted too.
pub fn leaves_as_found()
    ensures { LeavesAsFound }
{}

/// A law: a run may be played in segments. Where each begins with the tokens that the channels held at the
/// end of the one before, what each sink takes in all of them is a front of what it takes in the one long
/// run; and where the last one ends with no actor able to go, it is the same, and so is what the channels
/// hold.
pub fn segments_are_one_run()
    ensures { SegmentsAreOneRun }
{}

/// A law: with as many cells as the capacities add up to, any number of periods can be played whole.
pub fn can_be_played_whole()
    ensures { CanBePlayedWhole }
{}

/// A law: a run that ends complete, over files that hold what it takes and no more, is played whole.
pub fn complete_is_whole()
    ensures { CompleteIsWhole }
{}

/// A law: a run that was played in whole segments so far goes on by one segment more.
pub fn goes_on_by_segments()
    ensures { GoesOnBySegments }
{}

/// A law: files that are exact, feeds that are fit and a number of periods that may be run are so of the
/// graph that goes on from whole segments too, where they are so of the first one.
pub fn ask_as_at_first()
    ensures { AskAsAtFirst }
{}

/// A law: an honest journal of an accepted graph begins no more firings of an actor than the greatest
/// counts have that fit the capacities, the tokens of the sources and the periods.
pub fn stays_within_most()
    ensures { StaysWithinMost }
{}

/// A law: nor does it begin more firings of all actors together than these counts add up to, or than the
/// limit on all firings where that is less.
pub fn begins_at_most()
    ensures { BeginsAtMost }
{}
