//! The line of a source in an explanation: what is wrong with its token file.

ghost use Rattle.std.specs.Prelude.{◌≡◌, ◌≢◌, ◌++◌, option_map, slice_get, string_bytes, Some, Ok, Err, IfErr, IfOk, OnOk};
ghost use Rattle.std.specs.List.{list_all, slice_split};
ghost use Rattle.csdf_bytes.specs.TokenText.{is_newline, tokens_in};
ghost use Rattle.csdf_explain.specs.TokenNotes.{fault_words, is_binary, is_short, is_visible, line_in, line_words, note_line, quoted, shown, syntax_words, token_note, tokens_words, wrong_in, wrong_with};

use csdf_answers::TokenFile;
use csdf_bytes::{INPUT_LIMIT, Slice, TokenFault, read_tokens, without_carriage_return};
use std::alloc::{AllocError, Global};
use std::str;

/// Whether a byte is a space, or a character of ASCII that can be seen.
fn is_visible(byte: u8) -> bool
    ensures { result ≡ is_visible byte }
{
    31 < byte && byte < 127
}

/// Whether a line has such bytes alone.
fn are_visible(line: &[u8]) -> bool
    ensures { result ≡ list_all is_visible line.now }
{
    line.iter().all(|byte| is_visible(*byte))
}

/// Whether a line has at most 40 such bytes, and no others.
fn is_short(line: &[u8]) -> bool
    ensures { result ≡ is_short line.now }
{
    line.len() < 41 && are_visible(line)
}

/// A line as it is shown, where it is short.
fn shown(line: &[u8]) -> Option<&str>
    ensures { option_map (λ text. text.now) result ≡ shown line.now }
{
    if is_short(line) {
        match str::from_utf8(line) {
            Ok(text) => Some(text),
            Err(_) => None,
        }
    } else {
        None
    }
}

/// The part with this number of a text that is cut at its newlines.
fn part_at(text: &[u8], number: usize) -> Option<&[u8]>
    ensures { option_map (λ part. part.now) result ≡ slice_get (slice_split is_newline text.now) number }
{
    text.split(|byte| *byte == b'\n').nth(number)
}

/// The line with this number, counted from 1, less one carriage return at its end.
fn line_in(bytes: &[u8], number: u32) -> &[u8]
    ensures { result.now ≡ line_in bytes.now number }
{
    match part_at(bytes, number.saturating_sub(1) as usize) {
        Some(line) => without_carriage_return(line),
        None => &[],
    }
}

/// Appends a line in quotes, where it is shown.
fn push_quoted(text: &mut String, line: &[u8]) -> Result<(), AllocError>
    ensures { OnOk result (string_bytes text.new ≡ string_bytes text.old ++ quoted line.now) }
{
    match shown(line) {
        Some(line) => write!(text, ": \"{line}\""),
        None => Ok(()),
    }
}

/// That the line of this number is wrong in this way.
fn line_words(alloc: Global, bytes: &[u8], number: u32, wrong: &str) -> Result<String, AllocError>
    ensures { IfOk result (λ words. string_bytes words ≡ line_words number wrong.now (line_in bytes.now number)) }
{
    let mut words = String::new(alloc);
    write!(words, "whose line {number}{wrong}")?;
    push_quoted(&mut words, line_in(bytes, number))?;
    Ok(words)
}

/// The words in memory of their own.
fn told(alloc: Global, words: &str) -> Result<Option<String>, AllocError>
    ensures { IfOk result (λ told. option_map string_bytes told ≡ Some words.now) }
{
    let text = String::from_str(alloc, words)?;
    Ok(Some(text))
}

/// What is wrong with the line of this number.
fn told_line(
    alloc: Global,
    bytes: &[u8],
    number: u32,
    wrong: &str,
) -> Result<Option<String>, AllocError>
    ensures { IfOk result (λ told. option_map string_bytes told ≡ Some (line_words number wrong.now (line_in bytes.now number))) }
{
    let text = line_words(alloc, bytes, number, wrong)?;
    Ok(Some(text))
}

/// Whether it has a byte 0, which stands in no text.
fn is_binary(bytes: &[u8]) -> bool
    ensures { result ≡ is_binary bytes.now }
{
    bytes.iter().any(|byte| *byte == 0)
}

/// That the line of this number is no whole number, or that the file is no text at all.
fn told_syntax(alloc: Global, bytes: &[u8], number: u32) -> Result<Option<String>, AllocError>
    ensures { IfOk result (λ told. option_map string_bytes told ≡ Some (syntax_words bytes.now number)) }
{
    if is_binary(bytes) {
        return told(alloc, "which is binary, and no text");
    }
    told_line(alloc, bytes, number, " is no whole number")
}

/// What is wrong with bytes whose tokens have this fault.
fn told_fault(alloc: Global, bytes: &[u8], fault: TokenFault) -> Result<Option<String>, AllocError>
    ensures told { IfOk result (λ told. option_map string_bytes told ≡ fault_words bytes.now fault) }
    ensures known { OnOk result ((fault ≢ TokenFault.Read) × (fault ≢ TokenFault.Memory)) }
{
    match fault {
        TokenFault::Syntax(number) => told_syntax(alloc, bytes, number),
        TokenFault::Range(number) => {
            told_line(
                alloc,
                bytes,
                number,
                " is outside -2147483648 to 2147483647",
            )
        }
        TokenFault::TooMany => told(alloc, "which has more than 1000000 tokens"),
        TokenFault::Read | TokenFault::Memory => Err(AllocError),
    }
}

/// The tokens of bytes, or their first fault.
fn tokens_of(alloc: Global, bytes: &[u8]) -> Result<Vec<i32>, TokenFault>
    ensures tokens { IfOk result (λ tokens. tokens_in bytes.now ≡ Ok tokens.items) }
    ensures fault { IfErr result (λ fault. fault ≢ TokenFault.Read → fault ≢ TokenFault.Memory → tokens_in bytes.now ≡ Err fault) }
{
    read_tokens(alloc, &mut Slice::new(bytes))
}

const LONG: &str = "which has more than 16777216 bytes";

/// What is wrong with the tokens of a file: that there are none.
fn told_tokens(alloc: Global, tokens: &[i32]) -> Result<Option<String>, AllocError>
    ensures { IfOk result (λ told. option_map string_bytes told ≡ tokens_words tokens.now) }
{
    match tokens {
        [] => told(alloc, "which has no tokens"),
        [_, ..] => Ok(None),
    }
}

/// What is wrong with the bytes of a token file, where something is.
fn wrong_in(alloc: Global, bytes: &[u8]) -> Result<Option<String>, AllocError>
    ensures { IfOk result (λ told. option_map string_bytes told ≡ wrong_in bytes.now) }
{
    if bytes.len() > INPUT_LIMIT {
        return told(alloc, LONG);
    }
    match tokens_of(alloc, bytes) {
        Ok(tokens) => told_tokens(alloc, &tokens),
        Err(fault) => told_fault(alloc, bytes, fault),
    }
}

/// What is wrong with a token file, where something is.
fn wrong_with(alloc: Global, file: &TokenFile) -> Result<Option<String>, AllocError>
    ensures { IfOk result (λ told. option_map string_bytes told ≡ wrong_with file.now) }
{
    match file {
        TokenFile::Missing => told(alloc, "which is missing"),
        TokenFile::Folder => told(alloc, "which is a folder"),
        TokenFile::Special => told(alloc, "which is no ordinary file, and was not looked at"),
        TokenFile::Forbidden => told(alloc, "which may not be read"),
        TokenFile::Unread => told(alloc, "which cannot be read"),
        TokenFile::TooLong => told(alloc, LONG),
        TokenFile::Bytes(bytes) => wrong_in(alloc, bytes),
    }
}

/// Appends what is wrong with the file of this path, which a source reads.
fn push_line(text: &mut String, source: &str, path: &str, words: &str) -> Result<(), AllocError>
    ensures { OnOk result (string_bytes text.new ≡ string_bytes text.old ++ note_line source.now path.now words.now) }
{
    write!(text, "{source} reads {path}, {words}\n")
}

/// Appends the line of a source by the path of its token file and by what was found there, and
/// nothing where all is well.
pub fn push_token_note(
    alloc: Global,
    text: &mut String,
    source: &str,
    path: &str,
    file: &TokenFile,
) -> Result<(), AllocError>
    ensures { OnOk result (string_bytes text.new ≡ string_bytes text.old ++ token_note source.now path.now file.now) }
{
    match wrong_with(alloc, file)? {
        Some(words) => push_line(text, source, path, words.as_str()),
        None => Ok(()),
    }
}
