//! How many periods a run has.

ghost use Rattle.csdf_run.specs.Texts.{GoesOnFor};

use csdf_analysis::{Accepted, Length};
use csdf_floor::most_periods;

/// How many periods that is for a graph: see [`most_periods`].
pub(crate) fn periods_of(how_long: Length, accepted: &Accepted) -> u32
    ensures { GoesOnFor how_long accepted.now result }
{
    match how_long {
        Length::Periods(periods) => periods,
        Length::UntilDry => most_periods(accepted),
    }
}
