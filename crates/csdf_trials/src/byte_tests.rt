//! Worked examples of devices and token files.

use crate::shared::expect_eq;
use csdf_bytes::{
    DeviceFailed, FromReader, Fused, InputFault, Intake, Outlet, Slice, ToWriter, TokenFault,
    WordFault, WriteFault, read_bytes, read_tokens, token_of, write_bytes, write_tokens,
};
use std::io;
use std::io::{ErrorKind, Read, Write};
use std::process::Abort;
use std::test::Fail;

/// Texts and their tokens.
const WELL_FORMED: [(&[u8], &[i32]); 8] = [
    (b"", &[]),
    (b"7\n8", &[7, 8]),
    (b"1\n\n2\n", &[1, 2]),
    (b"+1\r\n -5\t\n007\n", &[1, -5, 7]),
    (b"2147483647\n-2147483648\n", &[2147483647, -2147483648]),
    (b"-0\n", &[0]),
    (b"5 \r", &[5]),
    (b" \t-12 \r", &[-12]),
];

/// Asserts the tokens of a text.
fn expect_tokens(rt: &(impl Abort + AllocGlobal), text: &[u8], want: &[i32]) -> Result<(), Fail> {
    let tokens = read_tokens(rt.alloc(), &mut Slice::new(text))?;
    expect_eq(rt, tokens.as_slice(), want);
    Ok(())
}

#[test]
fn well_formed_texts_give_their_tokens(rt: HostRuntime) -> Result<(), Fail> {
    for (text, want) in &WELL_FORMED {
        expect_tokens(&rt, *text, *want)?;
    }
    Ok(())
}

/// Texts, and why they are refused.
const FAULTY: [(&[u8], TokenFault); 13] = [
    (b"1\n2147483648\n", TokenFault::Range(2)),
    (b"1\n-2147483649\n", TokenFault::Range(2)),
    (b"1x\n", TokenFault::Syntax(1)),
    (b"-\n", TokenFault::Syntax(1)),
    (b"1 2\n", TokenFault::Syntax(1)),
    (b"1\n\xff\n", TokenFault::Syntax(2)),
    (b"--1\n", TokenFault::Syntax(1)),
    (b"99999999999999999999\n", TokenFault::Range(1)),
    (b"99999999999999999999x\n", TokenFault::Syntax(1)),
    (b"5\r \n", TokenFault::Syntax(1)),
    (b"5\r\r\n", TokenFault::Syntax(1)),
    (b"\x0c5\n", TokenFault::Syntax(1)),
    (b"\xef\xbb\xbf5\n", TokenFault::Syntax(1)),
];

#[test]
fn the_first_faulty_line_is_told(rt: HostRuntime) {
    for (text, want) in &FAULTY {
        expect_no_tokens(&rt, &mut Slice::new(*text), *want);
    }
}

/// Asserts that a token file is refused so.
fn expect_no_tokens(rt: &(impl Abort + AllocGlobal), reader: &mut impl Intake, want: TokenFault) {
    expect_eq(rt, read_tokens(rt.alloc(), reader).err(), Some(want));
}

/// Asserts that a file's bytes are refused so.
fn expect_no_bytes(rt: &(impl Abort + AllocGlobal), reader: &mut impl Intake, want: InputFault) {
    expect_eq(rt, read_bytes(rt.alloc(), reader).err(), Some(want));
}

/// A line that is given so many times, and then the end of the text.
fn repeated(rt: &impl AllocGlobal, line: &[u8], count: usize, end: &[u8]) -> Result<Vec<u8>, Fail> {
    let mut text = Vec::new(rt.alloc());
    for _ in 0..count {
        text.extend_from_slice(line)?;
    }
    text.extend_from_slice(end)?;
    Ok(text)
}

/// Asserts how many tokens a text has.
fn expect_count(rt: &(impl Abort + AllocGlobal), text: &[u8], count: usize) -> Result<(), Fail> {
    let tokens = read_tokens(rt.alloc(), &mut Slice::new(text))?;
    expect_eq(rt, tokens.len(), count);
    Ok(())
}

#[test]
fn tokens_up_to_the_limit_are_read(rt: HostRuntime) -> Result<(), Fail> {
    let most = repeated(&rt, b"0\n", 1_000_000, b"")?;
    expect_count(&rt, &most, 1_000_000)
}

/// What follows a million tokens, and why the text is refused.
const TOO_MANY: [(&[u8], TokenFault); 3] = [
    (b"0\n", TokenFault::TooMany),
    (b"x\n", TokenFault::Syntax(1_000_001)),
    (b"2147483648\n", TokenFault::Range(1_000_001)),
];

#[test]
fn tokens_have_a_limit(rt: HostRuntime) -> Result<(), Fail> {
    for (end, want) in &TOO_MANY {
        let text = repeated(&rt, b"0\n", 1_000_000, *end)?;
        expect_no_tokens(&rt, &mut Slice::new(&text), *want);
    }
    Ok(())
}

/// Asserts that all the bytes are read.
fn expect_read(
    rt: &(impl Abort + AllocGlobal),
    reader: &mut impl Intake,
    count: usize,
) -> Result<(), Fail> {
    let bytes = read_bytes(rt.alloc(), reader)?;
    expect_eq(rt, bytes.len(), count);
    Ok(())
}

/// Asserts that all the empty lines of a text are read.
fn expect_lines(rt: &(impl Abort + AllocGlobal), text: &[u8]) -> Result<(), Fail> {
    expect_read(rt, &mut Slice::new(text), 16_777_216)?;
    // 256 pieces and the end: the reader is not asked byte by byte.
    expect_read(rt, &mut Fused::new(Slice::new(text), 257), 16_777_216)?;
    // Each of them ends an empty line.
    expect_count(rt, text, 0)
}

#[test]
fn bytes_up_to_the_limit_are_read(rt: HostRuntime) -> Result<(), Fail> {
    let text = vec![in rt.alloc(); b'\n'; 16_777_216]?;
    expect_lines(&rt, &text)
}

#[test]
fn bytes_have_a_limit(rt: HostRuntime) -> Result<(), Fail> {
    let text = vec![in rt.alloc(); b'\n'; 16_777_217]?;
    expect_no_bytes(&rt, &mut Slice::new(&text), InputFault::TooLong);
    expect_no_tokens(&rt, &mut Slice::new(&text), TokenFault::TooMany);
    Ok(())
}

#[test]
fn a_failing_reader_is_told_before_any_line(rt: HostRuntime) {
    for text in [b"1x\n".as_slice(), b"1\n"] {
        let mut reader = Fused::new(Slice::new(text), 1);
        expect_no_tokens(&rt, &mut reader, TokenFault::Read);
        expect_no_tokens(&rt, &mut reader, TokenFault::Read);
        expect_no_bytes(&rt, &mut Fused::new(Slice::new(text), 1), InputFault::Read);
    }
}

#[test]
fn tokens_are_written(rt: HostRuntime) -> Result<(), Fail> {
    let mut text = Vec::new(rt.alloc());
    write_tokens(&mut ToWriter::new(&mut text), &[-2147483648, 0, 7])?;
    expect_eq(&rt, text.as_slice(), b"-2147483648\n0\n7\n".as_slice());
    Ok(())
}

/// Tokens that go out in three pieces, since 512 lines are written at a time.
const THREE_PIECES: [i32; 1_025] = [7; 1_025];

#[test]
fn a_failing_writer_is_told(rt: HostRuntime) {
    for (calls, bytes) in [(0, 0), (1, 1_024), (2, 2_048)] {
        let mut text = Vec::new(rt.alloc());
        let mut writer = Fused::new(ToWriter::new(&mut text), calls);
        expect_eq(
            &rt,
            write_tokens(&mut writer, &THREE_PIECES),
            Err(WriteFault),
        );
        expect_eq(&rt, write_tokens(&mut writer, &[1]), Err(WriteFault));
        expect_eq(&rt, write_bytes(&mut writer, b"1"), Err(WriteFault));
        expect_eq(&rt, write_tokens(&mut writer, &[]), Ok(()));
        expect_eq(&rt, text.len(), bytes);
    }
}

/// A reader and a writer of which every second call fails.
#[derive(Drop)]
struct Moody {
    fails: bool,
}

impl Moody {
    fn turn(&mut self) -> io::Result<usize> {
        self.fails = !self.fails;
        if self.fails {
            Ok(1)
        } else {
            Err(io::Error::from(ErrorKind::Other))
        }
    }
}

impl Read for Moody {
    fn read(&mut self, buf: &mut [u8]) -> io::Result<usize> {
        Ok(self.turn()?.min(buf.len()))
    }
}

impl Write for Moody {
    fn write(&mut self, buf: &[u8]) -> io::Result<usize> {
        Ok(self.turn()?.min(buf.len()))
    }

    fn flush(&mut self) -> io::Result<()> {
        Ok(())
    }
}

#[test]
fn a_failed_device_stays_failed(rt: HostRuntime) {
    let mut buffer = [0; 4];
    let mut reader = FromReader::new(Moody { fails: false });
    let mut writer = ToWriter::new(Moody { fails: false });
    let answers = [Ok(1), Err(DeviceFailed), Err(DeviceFailed)];
    for want in answers {
        expect_eq(&rt, reader.fetch(&mut buffer), want);
        expect_eq(&rt, writer.emit(&buffer), want);
    }
}

#[test]
fn a_writer_that_takes_nothing_has_failed(rt: HostRuntime) {
    let mut room = [0; 2];
    let mut writer = ToWriter::new(room.as_mut_slice());
    expect_eq(&rt, writer.emit(b"abc"), Ok(2));
    expect_eq(&rt, writer.emit(b"abc"), Err(DeviceFailed));
    expect_eq(&rt, writer.emit(b"abc"), Err(DeviceFailed));
}

#[test]
fn readers_give_their_bytes(rt: HostRuntime) -> Result<(), Fail> {
    let mut reader = FromReader::new(b"ab\ncd".as_slice());
    let bytes = read_bytes(rt.alloc(), &mut reader)?;
    expect_eq(&rt, bytes.as_slice(), b"ab\ncd".as_slice());
    Ok(())
}

#[test]
fn words_are_read(rt: HostRuntime) {
    expect_eq(&rt, token_of(b"-12"), Ok(-12));
    expect_eq(&rt, token_of(b""), Err(WordFault::Malformed));
    expect_eq(&rt, token_of(b"2147483648"), Err(WordFault::OutOfRange));
}
