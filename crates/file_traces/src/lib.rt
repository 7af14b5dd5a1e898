//! Traces of the compiled code of a pool in a file, which `trace.c` of the library for C writes: which
//! word or lock each instruction changed. The proved machine follows a trace, and has to change the
//! same words.
//!
//! The modules, in the order in which to read them:
//!
//! - `which_word`: the flag, entry or slot of the machine that each word of the file is.
//! - `lines`: the lines of a trace.
//! - `replay`: the machine follows the lines.
//! - `traces`: from the bytes of a trace to its end.
#![tactic(auto)]

pub mod lines;
pub mod replay;
pub mod traces;
pub mod which_word;
