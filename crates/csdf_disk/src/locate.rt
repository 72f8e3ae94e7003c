//! Which file of the system a path stands for.

ghost use Rattle.std.specs.Prelude.{◌≡◌, ◌≢◌, None, IfErr, IfOk};
ghost use Rattle.std.specs.Fs.{IsFile, file_type};
ghost use Rattle.std.specs.IoError.{error_kind};

use crate::place::{FilePlace, Node};
use crate::system::System;
use csdf_answers::Name;
use std::alloc::{AllocError, Global};
use std::fs::Metadata;
use std::io::{self, ErrorKind};
use std::os::unix::fs::MetadataExt;
use std::path::PathBuf;

/// How many links are followed at most, as many as the system follows.
const MOST_LINKS: u32 = 40;

/// The numbers of a file. That they are the file's is by reading.
fn node_of(told: &Metadata) -> Node {
    Node {
        device: told.dev(),
        number: told.ino(),
    }
}

/// The place of a file, by what the system tells; none where it tells that no file is there.
fn place_told(told: io::Result<Metadata>) -> Option<FilePlace>
    ensures plain { IfOk told (λ told. IsFile (file_type told) → (node : Node) × (result ≡ Some (FilePlace.File node))) }
    ensures other { IfOk told (λ told. ¬ IsFile (file_type told) → result ≡ Some FilePlace.Other) }
    ensures free { IfErr told (λ error. error_kind error ≡ ErrorKind.NotFound → result ≡ None) }
    ensures unknown { IfErr told (λ error. error_kind error ≢ ErrorKind.NotFound → result ≡ Some FilePlace.Other) }
{
    match told {
        Ok(told) if told.is_file() => Some(FilePlace::File(node_of(&told))),
        Ok(_) => Some(FilePlace::Other),
        Err(error) if error.kind() == ErrorKind::NotFound => None,
        Err(_) => Some(FilePlace::Other),
    }
}

/// The path that a link at a path stands for.
fn linked(alloc: Global, link: &PathBuf, text: &PathBuf) -> Result<PathBuf, AllocError> {
    match link.parent() {
        Some(folder) => folder.join(alloc, text.as_str()),
        None => PathBuf::from_str(alloc, text.as_str()),
    }
}

/// The path at the end of the links at a path.
fn end_of_links<S: System>(
    alloc: Global,
    system: &mut S,
    path: &str,
) -> Result<PathBuf, AllocError> {
    let mut end = PathBuf::from_str(alloc, path)?;
    for _ in 0..MOST_LINKS {
        let Ok(text) = system.read_link(end.as_str()) else {
            return Ok(end);
        };
        end = linked(alloc, &end, &text)?;
    }
    Ok(end)
}

/// The folder of a path.
fn folder_of(path: &PathBuf) -> &str {
    match path.parent() {
        Some(folder) if !folder.as_str().is_empty() => folder.as_str(),
        _ => ".",
    }
}

/// The place at a path where no file is: where one would be made.
fn free_place<S: System>(
    alloc: Global,
    system: &mut S,
    path: &str,
) -> Result<FilePlace, AllocError> {
    let end = end_of_links(alloc, system, path)?;
    let Some(name) = end.file_name() else {
        return Ok(FilePlace::Other);
    };
    match system.metadata(folder_of(&end)) {
        Ok(folder) => {
            let name = Name::new(alloc, name)?;
            Ok(FilePlace::Free(node_of(&folder), name))
        }
        Err(_) => Ok(FilePlace::Other),
    }
}

/// Which file a path stands for, at the end of the links there.
pub(crate) fn place_at<S: System>(
    alloc: Global,
    system: &mut S,
    path: &str,
) -> Result<FilePlace, AllocError> {
    match place_told(system.metadata(path)) {
        Some(place) => Ok(place),
        None => free_place(alloc, system, path),
    }
}
