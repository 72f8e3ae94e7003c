//! What is written to a file.

/// What is written to a file.
#[derive(Clone, Copy, Debug)]
pub enum Content<'a> {
    /// These bytes.
    Bytes(&'a [u8]),
    /// The text of these tokens, one a line: of it no copy is kept.
    Tokens(&'a [i32]),
}
