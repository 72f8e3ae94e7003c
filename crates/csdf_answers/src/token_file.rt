//! What was found where a source's tokens should be.

/// What was found of a token file.
#[derive(Debug, Drop)]
pub enum TokenFile {
    /// There is no such file.
    Missing,
    /// It is a folder.
    Folder,
    /// It is neither a file of bytes nor a folder, and was not looked at.
    Special,
    /// It may not be read.
    Forbidden,
    /// It cannot be read, for another reason.
    Unread,
    /// It has more than 16,777,216 bytes.
    TooLong,
    /// It has these bytes.
    Bytes(Vec<u8>),
}
