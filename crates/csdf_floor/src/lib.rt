//! The floor on which the firings of an accepted graph are made, the journal of its moves and the laws
//! of journals, and how a run ends.
#![tactic(auto)]

mod blank;
mod book;
mod counts;
mod draft;
mod drafting;
mod ending;
mod exact;
mod fault;
mod fed;
mod floor;
mod laws;
mod limits;
mod lists;
mod looping;
mod making;
mod noting;
mod outcome;
mod phased;
mod printed;
mod same;
mod settling;
mod successive;
mod work;

pub use draft::Draft;
pub use ending::Ending;
pub use exact::{are_exact, given_to};
pub use fault::{DeliverFault, RunFault, StartFault};
pub use fed::{Fed, RunBounds};
pub use floor::Floor;
pub use laws::{
    agree, ask_as_at_first, begins_at_most, begins_no_more, can_be_played_whole,
    capacities_do_not_show, complete_is_whole, completes_all, ends_as_sequential, ends_by_ending,
    ends_complete, ends_counted, finishes_all, goes_on, goes_on_by_segments, has_sequential_run,
    is_honest_at_each, is_only, leaves_as_found, more_room_goes_as_far, one_ending,
    order_does_not_show, persists, quiet_is_exhausted, room_does_not_show, runs_honestly,
    segments_are_one_run, sequential_is_honest, stay_in_step, stays_counted, stays_within,
    stays_within_most,
};
pub use limits::{MAX_FEED_TOKENS, few_in_thousand, may_run, most_periods};
pub use lists::list_at;
pub use outcome::{ChannelReport, Outcome, Settled};
pub use printed::{ending_word, printed_report};
pub use settling::{settle, settle_and_hand_back};
pub use work::are_feeds;
