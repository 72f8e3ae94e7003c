//! Worked examples of the lines on token files in an explanation.

use crate::shared::{CHAIN, expect_eq, expect_eq_of};
use csdf_answers::TokenFile;
use csdf_bytes::ToWriter;
use csdf_explain::{explain_with, push_token_note};
use std::process::Abort;
use std::test::Fail;

/// The line of a source on a token file.
fn note(rt: &impl AllocGlobal, file: &TokenFile) -> Result<String, Fail> {
    let mut text = String::new(rt.alloc());
    push_token_note(rt.alloc(), &mut text, "src", "d/src.in", file)?;
    Ok(text)
}

/// Asserts what is said of a token file.
fn expect_told(rt: &(impl Abort + AllocGlobal), file: &TokenFile, want: &str) -> Result<(), Fail> {
    let found = note(rt, file)?;
    expect_eq_of(rt, found.as_str(), want, want);
    Ok(())
}

/// Asserts what is said of a token file with these bytes.
fn expect_note(rt: &(impl Abort + AllocGlobal), bytes: &[u8], want: &str) -> Result<(), Fail> {
    let bytes = Vec::from_slice(rt.alloc(), bytes)?;
    expect_told(rt, &TokenFile::Bytes(bytes), want)
}

/// The bytes of a token file, and its line.
const NOTES: [(&[u8], &str); 9] = [
    (b"", "src reads d/src.in, which has no tokens\n"),
    (b"1\n\n-2\r\n", ""),
    (
        b"1\n4,5\n6\n",
        "src reads d/src.in, whose line 2 is no whole number: \"4,5\"\n",
    ),
    (
        b"1\r\nx\r\n3\r\n",
        "src reads d/src.in, whose line 2 is no whole number: \"x\"\n",
    ),
    (
        b"\n\n 1 2",
        "src reads d/src.in, whose line 3 is no whole number: \" 1 2\"\n",
    ),
    (
        b"2147483648\n",
        "src reads d/src.in, whose line 1 is outside -2147483648 to 2147483647: \"2147483648\"\n",
    ),
    (
        b"\xef\xbb\xbf1\n",
        "src reads d/src.in, whose line 1 is no whole number\n",
    ),
    (
        b"x123456789012345678901234567890123456789\n",
        "src reads d/src.in, whose line 1 is no whole number: \"x123456789012345678901234567890123456789\"\n",
    ),
    (
        b"x1234567890123456789012345678901234567890\n",
        "src reads d/src.in, whose line 1 is no whole number\n",
    ),
];

#[test]
fn lines_of_token_files_are_told(rt: HostRuntime) -> Result<(), Fail> {
    for (bytes, want) in &NOTES {
        expect_note(&rt, *bytes, *want)?;
    }
    Ok(())
}

#[test]
fn unread_token_files_are_told(rt: HostRuntime) -> Result<(), Fail> {
    let missing = "src reads d/src.in, which is missing\n";
    expect_told(&rt, &TokenFile::Missing, missing)?;
    let folder = "src reads d/src.in, which is a folder\n";
    expect_told(&rt, &TokenFile::Folder, folder)?;
    let long = "src reads d/src.in, which has more than 16777216 bytes\n";
    expect_told(&rt, &TokenFile::TooLong, long)
}

#[test]
fn more_lines_follow_an_explanation(rt: HostRuntime) -> Result<(), Fail> {
    // Room for all of it, so that no write lacks memory.
    let mut written = Vec::with_capacity(rt.alloc(), 100)?;
    let mut writer = ToWriter::new(&mut written);
    explain_with(rt.alloc(), CHAIN.as_bytes(), "more\n", &mut writer)?;
    let told = String::from_utf8(written)?;
    expect_eq(
        &rt,
        told.as_str(),
        "accepted: a period completes, and can be repeated for ever\nmore\n",
    );
    Ok(())
}
