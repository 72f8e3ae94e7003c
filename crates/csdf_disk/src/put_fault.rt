//! Why a file was not put in its place.

/// Why a file was not put in its place: what stood there stands there still, or the start of the new
/// text where the place is no plain file.
#[derive(Clone, Copy, Debug, PartialEq, Eq)]
pub enum PutFault {
    /// A device failed.
    Device,
    /// Memory ran out before anything was written.
    Memory,
}
