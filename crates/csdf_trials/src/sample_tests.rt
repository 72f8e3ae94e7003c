//! Raw samples of each format, cut into pieces of every length from 1 to 9 bytes.

use csdf_bytes::{
    Reading, SampleFault, SampleFormat, SampleReader, Slice, ToWriter, write_samples,
};
use std::alloc::Global;
use std::process::Abort;
use std::test::Fail;

/// A format by its name, numbers, and the bytes of their samples.
struct Row {
    name: &'static str,
    numbers: &'static [i32],
    bytes: &'static [u8],
}

/// The ends of each format, 0, and numbers whose bytes differ.
const ROWS: [Row; 6] = [
    Row {
        name: "u8",
        numbers: &[0, 255, 1, 127, 128],
        bytes: b"\x00\xff\x01\x7f\x80",
    },
    Row {
        name: "s8",
        numbers: &[0, -128, 127, -1, 1],
        bytes: b"\x00\x80\x7f\xff\x01",
    },
    Row {
        name: "s16le",
        numbers: &[0, -32768, 32767, -1, 258],
        bytes: b"\x00\x00\x00\x80\xff\x7f\xff\xff\x02\x01",
    },
    Row {
        name: "s16be",
        numbers: &[0, -32768, 32767, -1, 258],
        bytes: b"\x00\x00\x80\x00\x7f\xff\xff\xff\x01\x02",
    },
    Row {
        name: "s32le",
        numbers: &[0, -2147483648, 2147483647, -1, 16909060],
        bytes: b"\x00\x00\x00\x00\x00\x00\x00\x80\xff\xff\xff\x7f\xff\xff\xff\xff\x04\x03\x02\x01",
    },
    Row {
        name: "s32be",
        numbers: &[0, -2147483648, 2147483647, -1, 16909060],
        bytes: b"\x00\x00\x00\x00\x80\x00\x00\x00\x7f\xff\xff\xff\xff\xff\xff\xff\x01\x02\x03\x04",
    },
];

/// The format of a row's name.
fn format_of(name: &str) -> Result<SampleFormat, Fail> {
    Ok(SampleFormat::named(name).ok_or("no format")?)
}

/// Asserts what is written for numbers, and how many of them are told to be none of the format.
fn expect_written(
    rt: &(impl Abort + AllocGlobal),
    format: SampleFormat,
    numbers: &[i32],
    want: &[u8],
    want_clipped: usize,
) -> Result<(), Fail> {
    let mut bytes = Vec::new(rt.alloc());
    let clipped = write_samples(&mut ToWriter::new(&mut bytes), format, numbers)?;
    assert_eq!(rt; bytes.as_slice(), want, "{format}");
    assert_eq!(rt; clipped, want_clipped, "{format}");
    Ok(())
}

#[test]
fn the_ends_of_each_format_are_written(rt: HostRuntime) -> Result<(), Fail> {
    for row in &ROWS {
        let format = format_of(row.name)?;
        expect_written(&rt, format, row.numbers, row.bytes, 0)?;
    }
    Ok(())
}

/// The piece of some bytes from a place on.
fn piece_at(bytes: &[u8], start: usize, size: usize) -> &[u8] {
    bytes
        .get(start..start.saturating_add(size).min(bytes.len()))
        .unwrap_or(&[])
}

/// Reads bytes that are handed over in pieces of this size, and then their end.
fn read_pieces(
    reader: &mut SampleReader,
    bytes: &[u8],
    size: usize,
    tokens: &mut Vec<i32>,
) -> Result<Reading, SampleFault> {
    for number in 0..bytes.len() {
        let piece = piece_at(bytes, number.saturating_mul(size), size);
        if !piece.is_empty() {
            reader.read(&mut Slice::new(piece), 100, tokens)?;
        }
    }
    reader.read(&mut Slice::new(&[]), 100, tokens)
}

/// Asserts what bytes in pieces of this size give, and what the end of them is.
fn expect_read(
    rt: &(impl Abort + AllocGlobal),
    format: SampleFormat,
    bytes: &[u8],
    size: usize,
    want: &[i32],
    want_end: Result<Reading, SampleFault>,
) -> Result<(), Fail> {
    let mut reader = SampleReader::new(rt.alloc(), format)?;
    let mut tokens = Vec::new(rt.alloc());
    let end = read_pieces(&mut reader, bytes, size, &mut tokens);
    assert_eq!(rt; tokens.as_slice(), want, "{format} in pieces of {size}");
    assert_eq!(rt; end, want_end, "{format} in pieces of {size}");
    Ok(())
}

#[test]
fn pieces_of_each_length_are_read_as_one_stream(rt: HostRuntime) -> Result<(), Fail> {
    for row in &ROWS {
        for size in 1..10 {
            let format = format_of(row.name)?;
            expect_read(
                &rt,
                format,
                row.bytes,
                size,
                row.numbers,
                Ok(Reading::Ended),
            )?;
        }
    }
    Ok(())
}

#[test]
fn a_sample_that_is_cut_off_is_counted_over_the_stream(rt: HostRuntime) -> Result<(), Fail> {
    for size in 1..10 {
        let two = b"\x01\x00\x02\x00\x03";
        let four = b"\x00\x00\x00\x07\x00\x00\x00";
        let second = Err(SampleFault::CutOff(2));
        let third = Err(SampleFault::CutOff(3));
        expect_read(&rt, SampleFormat::S16Le, two, size, &[1, 2], third)?;
        expect_read(&rt, SampleFormat::S32Be, four, size, &[7], second)?;
    }
    Ok(())
}

/// A format by its name, numbers, the bytes of the nearest, and how many are none of the format.
struct Clipped {
    name: &'static str,
    numbers: &'static [i32],
    bytes: &'static [u8],
    count: usize,
}

const CLIPPED: [Clipped; 4] = [
    Clipped {
        name: "u8",
        numbers: &[-1, 256, 7, -2147483648],
        bytes: b"\x00\xff\x07\x00",
        count: 3,
    },
    Clipped {
        name: "s8",
        numbers: &[-129, 128, 300, -128],
        bytes: b"\x80\x7f\x7f\x80",
        count: 3,
    },
    Clipped {
        name: "s16le",
        numbers: &[40000, -40000, 5],
        bytes: b"\xff\x7f\x00\x80\x05\x00",
        count: 2,
    },
    Clipped {
        name: "s16be",
        numbers: &[32768, 2147483647],
        bytes: b"\x7f\xff\x7f\xff",
        count: 2,
    },
];

#[test]
fn numbers_out_of_range_become_the_nearest_end(rt: HostRuntime) -> Result<(), Fail> {
    for row in &CLIPPED {
        let format = format_of(row.name)?;
        expect_written(&rt, format, row.numbers, row.bytes, row.count)?;
    }
    Ok(())
}

/// Asserts what is appended by one call, for no more than so many.
fn expect_next(
    rt: &(impl Abort + AllocGlobal),
    reader: &mut SampleReader,
    device: &mut Slice<'_>,
    most: usize,
    want: &[i32],
) -> Result<(), Fail> {
    let mut tokens = Vec::new(rt.alloc());
    reader.read(device, most, &mut tokens)?;
    assert_eq!(rt; tokens.as_slice(), want);
    Ok(())
}

#[test]
fn no_more_samples_come_than_are_asked_for(rt: HostRuntime) -> Result<(), Fail> {
    let mut reader = SampleReader::new(rt.alloc(), SampleFormat::S8)?;
    let mut device = Slice::new(b"\x01\x02\xfd\x04\x05");
    expect_next(&rt, &mut reader, &mut device, 2, &[1, 2])?;
    expect_next(&rt, &mut reader, &mut device, 0, &[])?;
    expect_next(&rt, &mut reader, &mut device, 2, &[-3, 4])?;
    expect_next(&rt, &mut reader, &mut device, 2, &[5])?;
    Ok(())
}

#[test]
fn many_samples_go_out_over_several_buffers(rt: HostRuntime) -> Result<(), Fail> {
    let numbers = vec![in rt.alloc(); 258; 3000]?;
    let mut bytes = Vec::new(rt.alloc());
    let format = SampleFormat::S16Be;
    let clipped = write_samples(&mut ToWriter::new(&mut bytes), format, numbers.as_slice())?;
    assert_eq!(rt; clipped, 0);
    assert_eq!(rt; bytes.len(), 6000);
    let mut reader = SampleReader::new(rt.alloc(), format)?;
    let mut tokens = Vec::new(rt.alloc());
    reader.read(&mut Slice::new(bytes.as_slice()), 5000, &mut tokens)?;
    assert_eq!(rt; tokens.as_slice(), numbers.as_slice());
    Ok(())
}
