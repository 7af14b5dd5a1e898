//! The replay of a whole trace, from its bytes on.

use crate::lines::{read_figures, read_line};
use crate::replay::{Difference, Replay};
use scripts::words::first_line;
use std::alloc::Global;

/// The result of following a trace. Lines are numbered as in the input.
#[derive(Debug, Clone, Copy, PartialEq, Eq)]
pub enum End {
    /// The machine allows each change.
    Same { lines: usize, changes: usize },
    /// The line of this number is unreadable.
    Unreadable(usize),
    /// The machine doesn't allow what a line says.
    Difference { line: usize, difference: Difference },
    /// Memory ran out.
    OutOfMemory,
}

/// Follows a trace to its end, or up to its first difference.
pub fn end_of(alloc: Global, input: &[u8]) -> End {
    let Some((first, rest)) = first_line(input) else {
        return End::Unreadable(1);
    };
    let Some(figures) = read_figures(first) else {
        return End::Unreadable(1);
    };
    let Ok(mut replay) = Replay::new(alloc, figures) else {
        return End::OutOfMemory;
    };
    let mut number = 1;
    let mut changes = 0;
    let mut left = rest;
    while let Some((text, rest)) = first_line(left) {
        number += 1;
        let Some(line) = read_line(text) else {
            return End::Unreadable(number);
        };
        if let Err(difference) = replay.follow(line) {
            return End::Difference {
                line: number,
                difference,
            };
        }
        if line.is_change() {
            changes += 1;
        }
        left = rest;
    }
    End::Same {
        lines: number,
        changes,
    }
}
