//! The line of a value.

ghost use Rattle.std.specs.Prelude.{◌≡◌, ◌≤◌, [], IfOk};
ghost use Rattle.json.specs.Json.{Json, max_depth};
ghost use Rattle.json.specs.Tree.{depth, json_tokens};
ghost use Rattle.csdf_json.specs.Lines.{IsLineOf};

use json::Writer;
use std::alloc::{AllocError, Global};

/// A writer of one value, which has written nothing.
pub fn json_writer(alloc: Global) -> Writer
    ensures before { result.before ≡ [] }
    ensures tokens { result.tokens ≡ [] }
{
    Writer::new(Vec::new(alloc))
}

/// What was written as a line: where that is a value, its text and a newline, which reads back.
///
/// The error is want of memory.
pub fn line_of(writer: Writer) -> Result<Vec<u8>, AllocError>
    requires { writer.before ≡ [] }
    ensures { (value : Json) → depth value ≤ max_depth → writer.tokens ≡ json_tokens value → IfOk result (λ line. IsLineOf value line.items) }
{
    let mut line = writer.into_inner();
    line.push(b'\n')?;
    Ok(line)
}
