//! Tables of scripts. Each line is a row: `NAME | SCRIPT | OUTPUT`, in which `; ` means a line
//! feed.
use super::checks::check_at;
use script_kinds::{Status, run};
use std::alloc::{AllocError, Global};
use std::process::Abort;

/// Splits a row after its first field.
pub(super) fn field_and_rest(row: &str) -> (&str, &str) {
    row.split_once(" | ").unwrap_or((row, ""))
}

/// Returns a field as lines.
pub(super) fn lines(alloc: Global, text: &str) -> Result<String, AllocError> {
    let mut lines = text.replace(alloc, "; ", "\n")?;
    if !text.is_empty() {
        lines.push('\n')?;
    }
    Ok(lines)
}

/// Returns whether a script ends with this status and writes exactly these lines.
pub(super) fn ends(alloc: Global, script: &[u8], status: Status, lines: &[u8]) -> bool {
    let mut output = Vec::new(alloc);
    run(alloc, script, &mut output) == status && output.as_slice() == lines
}

/// Returns whether a row's script ends with this status and writes exactly the row's output.
fn keeps_row(alloc: Global, status: Status, row: &str) -> bool {
    let (script, wrote) = field_and_rest(row);
    let (Ok(script), Ok(wrote)) = (lines(alloc, script), lines(alloc, wrote)) else {
        return false;
    };
    ends(alloc, script.as_bytes(), status, wrote.as_bytes())
}

/// Runs the script of each row, and checks its status and its output.
pub(super) fn check_rows(rt: &(impl Abort + AllocGlobal), ends: Status, table: &str) {
    for row in table.lines() {
        let (name, row) = field_and_rest(row);
        check_at(rt, keeps_row(rt.alloc(), ends, row), name);
    }
}
