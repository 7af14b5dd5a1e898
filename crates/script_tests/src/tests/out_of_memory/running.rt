//! Scripts that have to end correctly if any one request for memory fails: the run ends with status
//! 4, and its output is a beginning of the output with ample memory.
use crate::tests::checks::{check, refused, same};
use crate::tests::table::{field_and_rest, lines};
use script_kinds::{Status, run};
use std::process::Abort;

/// Runs a script, a second time if memory ran out, and checks its status and its output.
fn ends_with_status_4(rt: &(impl Abort + AllocGlobal), ends: Status, script: &[u8], lines: &[u8]) {
    let mut output = Vec::new(rt.alloc());
    if output.reserve(lines.len()).is_err() {
        return;
    }
    let status = run(rt.alloc(), script, &mut output);
    if status != ends {
        refused(rt);
        same(rt, (status, status.code()), (Status::OutOfMemory, 4));
        check(rt, lines.starts_with(output.as_slice()));
        output.clear();
        check(rt, run(rt.alloc(), script, &mut output) == ends);
    }
    check(rt, output.as_slice() == lines);
}

/// Runs a row's script. If memory for the test itself runs out, skips the row.
fn keeps(rt: &(impl Abort + AllocGlobal), ends: Status, row: &str) {
    let (script, wrote) = field_and_rest(row);
    if let (Ok(script), Ok(wrote)) = (lines(rt.alloc(), script), lines(rt.alloc(), wrote)) {
        ends_with_status_4(rt, ends, script.as_bytes(), wrote.as_bytes());
    }
}

const SCRIPTS: &str = "\
bump 4096 8; alloc 4 1; show; alloc 8 1; free 0 | \
    chunk 4096 4; BumpAllocator { start: 4096, size: 8, current_position: 4 }; used 4 free 4 total 8; OutOfMemory; released
one 4096 64; alloc 8 8; show; free 0; alloc 8 8 | chunk 4096 64; one start 4096 size 64 available no; released; chunk 4096 64
pool 4096 128 128 8; alloc 48 4; alloc 1 1; show; free 0 | \
    chunk 4096 48; OutOfMemory; pool start 4096 size 128 bucket 128 align 8 buckets 1 live 1 reads 1; released
fixed 4096 128 128 8; alloc 48 4; alloc 1 1; show; free 0 | \
    chunk 4096 48; OutOfMemory; fixed size 128 bucket 128 align 8 buckets 1 live 1; released
steps-bump 4096 64; read 0 8 8; show; exchange 0; clear | sees 0; used 0; wins 4096 8; cleared
steps-pool 2; try 0; try 1; show; try 1; give 0 0 | takes 0; loses 0; held 0 -; takes 1; gives 0
loan-pool 4096 128 128 8; out 0; loan 48; loan 1; publish 0 2; back 0; back 0; loan 7 | \
    no; loan 0 4096 48; OutOfMemory; published; kept; returned; loan 1 4096 7";

/// The line about the first unreadable line takes memory, too.
// row: refused-program
#[test]
fn a_script_of_each_kind(rt: HostRuntime) {
    for row in SCRIPTS.lines() {
        keeps(&rt, Status::Done, row);
    }
    let unreadable = "bump 4096 8; bad | line 2: refused";
    keeps(&rt, Status::Unreadable, unreadable);
}
