//! Reads a script from standard input, drives an allocator, a machine of steps or a loan book with
//! it, and writes a line for each reply. The library `script_kinds` defines scripts and their
//! replies; this program has the standard streams and the exit status.
#![tactic(auto)]

use script_kinds::run;
use std::io;
use std::process::ExitCode;

fn main(rt: HostRuntime) -> ExitCode {
    let status = run(rt.alloc(), rt.reader(), &mut io::writer(&rt));
    if let Some(text) = status.message() {
        let _ = eprintln!(rt; "memrun: {text}");
    }
    ExitCode::from(status.code())
}
