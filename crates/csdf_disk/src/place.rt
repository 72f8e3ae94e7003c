//! Which file a path stands for.

ghost use Rattle.std.specs.Prelude.{◌≡◌, IfErr, IfOk};
ghost use Rattle.csdf_disk.specs.Places.{is_one, is_one_node};

use csdf_answers::Name;

/// A file by the numbers of its device and of itself there.
#[derive(Clone, Copy, Debug, PartialEq, Eq)]
pub struct Node {
    /// The number of the device.
    pub device: u64,
    /// The number of the file there.
    pub number: u64,
}

impl Node {
    /// Whether it is the same file.
    pub(crate) fn is_one(&self, other: &Node) -> bool
        ensures { result ≡ is_one_node self.now other.now }
    {
        self.device == other.device && self.number == other.number
    }
}

/// Which file a path stands for, at the end of the links there.
#[derive(Debug, Drop)]
pub enum FilePlace {
    /// A plain file that is there.
    File(Node),
    /// A file that is not there, by its folder and its name there.
    Free(Node, Name),
    /// No plain file, as a pipe or a device, or one of which nothing is known.
    Other,
}

impl FilePlace {
    /// Whether both are one file.
    pub fn is_one(&self, other: &FilePlace) -> bool
        ensures { result ≡ is_one self.now other.now }
    {
        match self {
            FilePlace::File(node) => is_file(node, other),
            FilePlace::Free(folder, name) => is_free(folder, name.as_str(), other),
            FilePlace::Other => false,
        }
    }
}

/// Whether a place is this file.
fn is_file(node: &Node, place: &FilePlace) -> bool
    ensures { result ≡ is_one (FilePlace.File node.now) place.now }
{
    match place {
        FilePlace::File(other) => node.is_one(other),
        _ => false,
    }
}

/// Whether a place is the one of this name in a folder.
fn is_free(folder: &Node, name: &str, place: &FilePlace) -> bool
    ensures { result ≡ is_one (FilePlace.Free folder.now name.now) place.now }
{
    match place {
        FilePlace::Free(other, again) => folder.is_one(other) && name == again.as_str(),
        _ => false,
    }
}
