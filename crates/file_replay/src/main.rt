//! Reads a trace of processes that share a pool in a file, and has the proved machine take the same
//! steps. The library `file_traces` does both. The exit status is 0 if the machine allows each
//! change of a word and of a lock, and 1 at the first difference. It is 2 if a line is unreadable,
//! 3 if the input fails, and 4 if memory runs out.
#![tactic(auto)]

use file_traces::traces::{End, end_of};
use std::io::{ErrorKind, Read};
use std::process::ExitCode;

const DIFFERENCE: u8 = 1;

const UNREADABLE: u8 = 2;

const INPUT_FAILED: u8 = 3;

const OUT_OF_MEMORY: u8 = 4;

fn main(rt: HostRuntime) -> ExitCode {
    let mut input = Vec::new(rt.alloc());
    let mut reader = rt.reader();
    let end = match reader.read_to_end(&mut input) {
        Ok(_) => end_of(rt.alloc(), &input),
        Err(e) if e.kind() == ErrorKind::OutOfMemory => End::OutOfMemory,
        Err(_) => {
            let _ = eprintln!(rt; "file_replay: input failed");
            return ExitCode::from(INPUT_FAILED);
        }
    };
    match end {
        End::Same { lines, changes } => {
            let _ = println!(rt; "{lines} lines, {changes} changes: the machine allows each");
            ExitCode::SUCCESS
        }
        End::Unreadable(line) => {
            let _ = eprintln!(rt; "file_replay: line {line}: unreadable");
            ExitCode::from(UNREADABLE)
        }
        End::Difference { line, difference } => {
            let _ = eprintln!(rt; "file_replay: line {line}: {difference:?}");
            ExitCode::from(DIFFERENCE)
        }
        End::OutOfMemory => {
            let _ = eprintln!(rt; "file_replay: out of memory");
            ExitCode::from(OUT_OF_MEMORY)
        }
    }
}
