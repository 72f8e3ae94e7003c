//! Graphs and steps with which several tests begin.

use csdf_analysis::{Accepted, accept};
use csdf_answers::ToolFault;
use csdf_graph::read_graph;
use std::alloc::Global;
use std::fmt::Debug;
use std::process::Abort;
use std::test::Fail;

/// A source that gives 2, a stage that takes 3 and gives 1, and a sink that takes 2.
pub(crate) const CHAIN: &str = r#"actor = [
  { name = "a", kernel = "source" },
  { name = "b", kernel = "copy" },
  { name = "c", kernel = "sink" },
]
channel = [
  { name = "x", from = "a", to = "b", produce = [2], consume = [3] },
  { name = "y", from = "b", to = "c", produce = [1], consume = [2] },
]
"#;

/// Two channels that ask for different vectors.
pub(crate) const DISAGREEING: &str = r#"actor = [
  { name = "a", kernel = "source" },
  { name = "b", kernel = "sink" },
]
channel = [
  { name = "x", from = "a", to = "b", produce = [1], consume = [1] },
  { name = "y", from = "a", to = "b", produce = [2], consume = [1] },
]
"#;

/// A cycle with no token, and one with a token.
pub(crate) const STUCK_CYCLE: &str =
    r#"actor = [{ name = "a", kernel = "copy" }, { name = "b", kernel = "copy" }]
channel = [
  { name = "x", from = "a", to = "b", produce = [1], consume = [1] },
  { name = "y", from = "b", to = "a", produce = [1], consume = [1] },
]
"#;

/// The graph of the file, which is accepted.
pub(crate) fn accepted_in(alloc: Global, text: &str) -> Result<Accepted, Fail> {
    match accept(alloc, read_graph(alloc, text.as_bytes())?) {
        Ok(accepted) => Ok(accepted),
        Err((_, fault)) => Err(fault.into()),
    }
}

/// Asserts that what is found is as wanted: a call of this is proved in a fraction of the time that the
/// macro takes in its place.
pub(crate) fn expect_eq<T: PartialEq + Debug + Drop>(rt: &impl Abort, found: T, want: T) {
    assert_eq!(rt; found, want);
}

/// Asserts the same of what a text gives.
pub(crate) fn expect_eq_of<T: PartialEq + Debug + Drop>(
    rt: &impl Abort,
    found: T,
    want: T,
    text: &str,
) {
    expect_eq(rt, (text, found), (text, want));
}

/// The line of a fault.
pub(crate) fn line_of(rt: &impl AllocGlobal, fault: &ToolFault) -> Result<String, Fail> {
    Ok(format!(in rt.alloc(); "{fault}")?)
}

/// What was written for an answer, or the line of the fault, for which nothing was.
pub(crate) fn written_or_line(
    rt: &(impl Abort + AllocGlobal),
    written: Vec<u8>,
    answer: Result<(), ToolFault>,
) -> Result<String, Fail> {
    match answer {
        Ok(()) => Ok(String::from_utf8(written)?),
        Err(fault) => {
            expect_eq(rt, written.len(), 0);
            line_of(rt, &fault)
        }
    }
}
