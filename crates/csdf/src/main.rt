//! The program `csdf`: it plays the script of a graph file and prints the reply to each move, runs
//! the graph on files, or tells whether and how it can run for ever in bounded buffers.
#![tactic(auto)]

use csdf_bytes::{FromReader, ToWriter};
use csdf_disk::HostDisk;
use csdf_tool::{run_words, tell_waiting};
use std::env::{self, Env};
use std::io;
use std::process::ExitCode;

/// The words of the command line after the program's own name.
fn words_after_name(rt: &(impl Env + AllocGlobal)) -> io::Result<Vec<String>> {
    let words = env::args(rt)?.skip(1).collect(rt.alloc())?;
    Ok(words)
}

fn main(rt: HostRuntime) -> ExitCode {
    let mut reader = FromReader::new(rt.stdin());
    let mut out = ToWriter::new(rt.stdout());
    let mut err = ToWriter::new(rt.stderr());
    match words_after_name(&rt) {
        Ok(words) => {
            let mut disk = HostDisk::new(&rt);
            tell_waiting(&mut disk, &words, &mut err);
            ExitCode::from(run_words(&rt, &mut disk, &words, &mut reader, &mut out, &mut err))
        }
        Err(fault) if fault.kind() == io::ErrorKind::InvalidData => {
            let _ = eprintln!(rt; "error: invalid UTF-8 was detected in one or more arguments");
            ExitCode::from(2)
        }
        Err(_) => {
            let _ = eprintln!(rt; "csdf: memory");
            ExitCode::from(3)
        }
    }
}
