//! Token files cut into pieces of every length from 1 to 40 bytes.

use csdf_bytes::{FromReader, ReadFault, Slice, TokenFault, TokenReader, read_tokens};
use std::alloc::Global;
use std::io;
use std::io::Read;
use std::process::Abort;
use std::test::Fail;

/// Lines of every form, the last one without a newline.
const TEXT: &[u8] =
    b"7\n-12\r\n\n  +345\t\n \t \n00000000000000000000000000000000000000000000000000123\n2147483647\n-2147483648\n-0\n999999999\n1000000000\n99";

const TOKENS: &[i32] = &[
    7,
    -12,
    345,
    123,
    2147483647,
    -2147483648,
    0,
    999999999,
    1000000000,
    99,
];

/// A text whose fourth line is no number.
const FAULTY: &[u8] = b"7\n\n-12\n 1 2\n5\n";

const BEFORE: &[i32] = &[7, -12];

/// A reader that gives no more than so many bytes at a time.
#[derive(Drop)]
struct Sparing<'a> {
    bytes: &'a [u8],
    most: usize,
}

impl Read for Sparing<'_> {
    fn read(&mut self, buffer: &mut [u8]) -> io::Result<usize> {
        let count = self.most.min(self.bytes.len()).min(buffer.len());
        let (front, rest) = self.bytes.split_at(count);
        buffer[..count].copy_from_slice(front);
        self.bytes = rest;
        Ok(count)
    }
}

/// Reads the text from a reader that gives so many bytes at a time.
fn read_sparingly(alloc: Global, text: &[u8], most: usize) -> Result<Vec<i32>, TokenFault> {
    let mut reader = FromReader::new(Sparing { bytes: text, most });
    read_tokens(alloc, &mut reader)
}

#[test]
fn pieces_of_each_length_are_read_as_one_text(rt: HostRuntime) -> Result<(), Fail> {
    for most in 1..41 {
        let tokens = read_sparingly(rt.alloc(), TEXT, most)?;
        assert_eq!(rt; tokens.as_slice(), TOKENS, "{most}");
        let fault = read_sparingly(rt.alloc(), FAULTY, most).err();
        assert_eq!(rt; fault, Some(TokenFault::Syntax(4)), "{most}");
    }
    Ok(())
}

/// The piece of a text from a place on.
fn piece_at(text: &[u8], start: usize, size: usize) -> &[u8] {
    text.get(start..start.saturating_add(size).min(text.len()))
        .unwrap_or(&[])
}

/// Reads a text that is handed over in pieces of this size, and then its end.
fn read_pieces(
    reader: &mut TokenReader,
    text: &[u8],
    size: usize,
    tokens: &mut Vec<i32>,
) -> Result<(), ReadFault> {
    for number in 0..text.len() {
        let piece = piece_at(text, number.saturating_mul(size), size);
        if !piece.is_empty() {
            reader.read(&mut Slice::new(piece), 100, tokens)?;
        }
    }
    reader.read(&mut Slice::new(&[]), 100, tokens)?;
    Ok(())
}

#[test]
fn a_stream_gives_its_tokens_as_they_come(rt: HostRuntime) -> Result<(), Fail> {
    for size in 1..41 {
        let mut reader = TokenReader::new(rt.alloc())?;
        let mut tokens = Vec::new(rt.alloc());
        read_pieces(&mut reader, TEXT, size, &mut tokens)?;
        assert_eq!(rt; tokens.as_slice(), TOKENS, "{size}");
    }
    Ok(())
}

#[test]
fn a_faulty_line_is_counted_over_the_stream(rt: HostRuntime) -> Result<(), Fail> {
    for size in 1..41 {
        let mut reader = TokenReader::new(rt.alloc())?;
        let mut tokens = Vec::new(rt.alloc());
        let fault = read_pieces(&mut reader, FAULTY, size, &mut tokens).err();
        assert_eq!(rt; fault, Some(ReadFault::Syntax(4)), "{size}");
        assert_eq!(rt; tokens.as_slice(), BEFORE, "{size}");
    }
    Ok(())
}
