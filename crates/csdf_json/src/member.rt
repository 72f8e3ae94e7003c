//! The members of an object.

ghost use Rattle.std.specs.Prelude.{◌≡◌, ◌++◌, OnOk};
ghost use Rattle.csdf_json.specs.Lines.{flag_tokens, list_tokens, number_tokens, text_tokens};

use json::Writer;
use std::alloc::AllocError;

/// Appends a member that is a text.
pub fn put_text(writer: &mut Writer, name: &str, text: &str) -> Result<(), AllocError>
    ensures tokens { OnOk result (writer.new.tokens ≡ writer.old.tokens ++ text_tokens name.now text.now) }
    ensures before { writer.new.before ≡ writer.old.before }
{
    writer.key(name)?;
    writer.string(text)
}

/// Appends a member that is a number.
pub fn put_number(writer: &mut Writer, name: &str, number: u64) -> Result<(), AllocError>
    ensures tokens { OnOk result (writer.new.tokens ≡ writer.old.tokens ++ number_tokens name.now number) }
    ensures before { writer.new.before ≡ writer.old.before }
{
    writer.key(name)?;
    writer.u64(number)
}

/// Appends a member that is true or false.
pub fn put_flag(writer: &mut Writer, name: &str, flag: bool) -> Result<(), AllocError>
    ensures tokens { OnOk result (writer.new.tokens ≡ writer.old.tokens ++ flag_tokens name.now flag) }
    ensures before { writer.new.before ≡ writer.old.before }
{
    writer.key(name)?;
    writer.boolean(flag)
}

/// Begins a member that is a list.
pub fn open_list(writer: &mut Writer, name: &str) -> Result<(), AllocError>
    ensures tokens { OnOk result (writer.new.tokens ≡ writer.old.tokens ++ list_tokens name.now) }
    ensures before { writer.new.before ≡ writer.old.before }
{
    writer.key(name)?;
    writer.begin_array()
}
