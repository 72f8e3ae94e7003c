//! Laws that join the analysis of a graph and its core: an accepted graph runs for ever. The calls
//! do nothing.

ghost use Rattle.csdf_core.specs.Ever.{RunsForEver, PrintedIsPeriod, HasPeriod, AmpleByDefault, HasFirings, PhasesReturn};

/// A law: an accepted graph whose cells are at least the sum of its capacities runs for ever in
/// them. The moves of whole firings by any schedule of a period (Lee and Messerschmitt 1987; with
/// phases, Bilsen et al. 1996), period after period, are accepted from the opening state as often
/// as the limits and the files allow; no channel is ever above its capacity; and after each period
/// every channel holds as many tokens as at first and each actor is idle.
pub fn runs_for_ever()
    ensures { RunsForEver }
{}

/// A law: the printed schedule is one of a period.
pub fn printed_is_period()
    ensures { PrintedIsPeriod }
{}

/// A law: an accepted graph has a schedule of a period.
pub fn has_period()
    ensures { HasPeriod }
{}

/// A law: a graph that gives no number of cells has as many as its capacities add up to.
pub fn ample_by_default()
    ensures { AmpleByDefault }
{}

/// A law: there are moves of whole firings, whatever tokens they write.
pub fn has_firings()
    ensures { HasFirings }
{}

/// A law: after a period every actor is in its first phase again.
pub fn phases_return()
    ensures { PhasesReturn }
{}
