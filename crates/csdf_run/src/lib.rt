//! Running an accepted graph by one to eight workers, which share a floor.
#![tactic(auto)]

mod alone;
mod host;
mod no_outcome;
mod options;
mod periods;
mod request;
mod running;
mod script;
mod stream;
mod telling;
mod texts;
mod tokens;
mod totals;
mod watch;

pub use csdf_crew::{Gate, Open};
pub use host::Host;
pub use no_outcome::NoOutcome;
pub use options::RunOptions;
pub use running::run;
pub use script::kept_script;
pub use stream::{Part, Stream, Stretch};
pub use texts::{
    GraphRun, Texts, TextsFault, run_and_hand_back, run_graph_with, run_texts, run_texts_with,
};
pub use tokens::{FeedFault, TokensFault, TokensRun, run_tokens};
pub use totals::ChannelTotal;
pub use watch::Watch;
