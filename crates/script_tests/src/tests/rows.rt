//! Scripts with their output, each row by its name. The worked scripts of `docs/script-format.md`
//! are rows, too.
use super::checks::check_at;
use super::table::{check_rows, ends};
use bb_memory_base::steps::{bump_theorem, pool_theorem};
use script_kinds::Status::{self, Done, Unreadable};
use script_kinds::lines_law;

const BUMP: &str = "\
bump-odd-start-refused | bump 4097 8; alloc 8 8; show | \
    OutOfMemory; BumpAllocator { start: 4097, size: 8, current_position: 0 }; used 0 free 8 total 8
bump-zero-size-and-release | bump 4096 8; alloc 0 1; alloc 4 1; alloc 4 1; alloc 0 1; free 1; free 0; alloc 8 1 | \
    SizeIsZero; chunk 4096 4; chunk 4100 4; SizeIsZero; released; passed; chunk 4096 8
bump-near-the-top | bump 18446744073709551600 15; alloc 8 16; alloc 1 16; alloc 7 1; show | \
    chunk 18446744073709551600 8; OutOfMemory; chunk 18446744073709551608 7; \
    BumpAllocator { start: 18446744073709551600, size: 15, current_position: 15 }; used 15 free 0 total 15
bump-passed-commands | bump 4097 8; grow 0 1 1 2 1; alloc 1 1; shrink 0 1 1 0 1; free 0; free 0; show | \
    passed; chunk 4097 1; passed; released; passed; BumpAllocator { start: 4097, size: 8, current_position: 0 }; \
    used 0 free 8 total 8
bump-huge-alignment | bump 4096 8; alloc 1 4611686018427387904; alloc 0 9223372036854775808 | OutOfMemory; SizeIsZero
bump-empty-region | bump 4096 0; alloc 1 1; alloc 0 1 | OutOfMemory; SizeIsZero
bump-largest-size | bump 4096 8; alloc 9223372036854775807 1 | OutOfMemory";

const ONE_CHUNK: &str = "\
one-exact-fit | one 4096 1024; alloc 1024 1; alloc 1023 1; alloc 1 1 | chunk 4096 1024; OutOfMemory; OutOfMemory
one-exact-fit-after-padding | one 4097 8; alloc 2 8; alloc 1 8 | OutOfMemory; chunk 4104 1
one-place-at-the-end | one 4097 7; alloc 0 8; alloc 7 1 | OutOfMemory; chunk 4097 7
one-resizes | one 4097 1024; alloc 48 4; shrink 0 64 4 32 4; grow 0 48 4 64 4; grow 0 64 4 64 4; grow 0 48 4 64 8; \
    grow 0 48 4 1022 4; grow 0 48 4 1021 4; grow 0 48 16 64 16 | \
    chunk 4100 1021; chunk 4100 32; chunk 4100 1021; GrowWouldShrink; AlignmentFailure; OutOfMemory; chunk 4100 1021; passed
one-padding-past-end | one 4097 2; alloc 1 8; alloc 0 1; show | OutOfMemory; chunk 4097 2; one start 4097 size 2 available no
one-near-the-top | one 18446744073709551601 14; alloc 1 16; alloc 13 1 | OutOfMemory; chunk 18446744073709551601 14
one-empty-region | one 4096 0; alloc 0 1 | OutOfMemory";

const POOLS: &str = "\
pool-odd-start-getters | pool 4097 1024 128 8; show | pool start 4104 size 1024 bucket 128 align 8 buckets 7 live 0 reads 0
pool-huge-alignment | pool 4096 1024 1 4611686018427387904; alloc 1 1; alloc 2 1; show | \
    OutOfMemory; SizeTooLarge; \
    pool start 4611686018427387904 size 1024 bucket 1 align 4611686018427387904 buckets 0 live 0 reads 0
pool-padding-past-end | pool 4097 2 1 8; alloc 1 1; show | \
    OutOfMemory; pool start 4104 size 2 bucket 1 align 8 buckets 0 live 0 reads 0
fixed-near-the-top | fixed 18446744073709551608 7 4 2; alloc 4 2; alloc 0 1; free 0; alloc 0 1; show | \
    chunk 18446744073709551608 4; OutOfMemory; released; chunk 18446744073709551608 0; \
    fixed size 7 bucket 4 align 2 buckets 1 live 1";

const STEPS: &str = "\
steps-bump-race | steps-bump 4096 64; read 0 40 1; read 1 40 1; exchange 1; exchange 0; show | \
    sees 0; sees 0; wins 4096 40; loses 40 refused OutOfMemory; used 40
steps-bump-clear-between | steps-bump 4096 64; read 0 10 1; read 1 8 8; exchange 1; clear; exchange 0; show | \
    sees 0; sees 0; wins 4096 8; cleared; wins 4096 10; used 10
steps-bump-near-the-top | steps-bump 18446744073709551600 15; read 0 8 16; read 1 1 16; exchange 0; exchange 1 | \
    sees 0; sees 0; wins 18446744073709551600 8; loses 8 refused OutOfMemory
steps-pool-one-bucket | steps-pool 1; give 0 0; try 0; give 1 0; try 0; give 0 0; try 0; show | \
    passed; takes 0; passed; loses 0 refused OutOfMemory; gives 0; takes 0; held 0
steps-pool-no-bucket | steps-pool 0; try 0; show | passed; held";

const LOANS: &str = "\
loan-pool-refusals | loan-pool 4096 128 128 8; loan 9223372036854775808; loan 200; loan 0; loan 1; publish 0 0; publish 0 1; \
    publish 0 0; publish 7 0; back 0; out 0; loan 1 | \
    Size; SizeTooLarge; loan 0 4096 0; OutOfMemory; NoReaders; published; AlreadyPublished; UnknownSample; returned; no; \
    loan 1 4096 1
the greatest numbers | loan-pool 4096 128 128 8; loan 18446744073709551615; loan 1; publish 18446744073709551615 4294967295; \
    publish 0 4294967295; back 18446744073709551615; out 18446744073709551615; back 0; out 0 | \
    Size; loan 0 4096 1; UnknownSample; published; UnknownSample; no; kept; yes";

const UNREADABLE: &str = "\
script-bad-alignment | bump 4096 8; alloc 1 3 | line 2: refused
script-region-past-top | bump 18446744073709551600 16 | line 1: refused
script-too-many-buckets | steps-pool 4097 | line 1: refused
script-pool-at-bucket-limit | pool 4096 4294967295 1 1 | line 1: refused
script-pool-bucket-size-zero | pool 4096 1024 0 8 | line 1: refused
script-pool-start-past-top | pool 18446744073709551600 15 1 4611686018427387904 | line 1: refused
script-start-zero | bump 0 8 | line 1: refused
script-rounded-size-too-large | bump 4096 8; alloc 9223372036854775807 2 | line 2: refused
script-cut-off | bump 4096 8; alloc 4 | line 2: refused
script-leading-zero | bump 4096 8; alloc 04 1 | line 2: refused
script-layout-too-large | bump 4096 8; alloc 1 9223372036854775808 | line 2: refused
script-empty-line | bump 4096 8; ; alloc 1 1 | line 2: refused
script-two-spaces | bump 4096  8 | line 1: refused
script-number-past-top | bump 4096 18446744073709551616 | line 1: refused
script-carriage-return | bump 4096 8; alloc 1 1\r | line 2: refused
a tab | bump 4096 8; alloc 4\t1 | line 2: refused
a space at the end | bump 4096 8; show\x20 | line 2: refused
a first line twice | bump 4096 8; bump 4096 8 | line 2: refused
script-party-past-last | steps-bump 4096 8; load 64 | line 2: refused
a show | loan-pool 4096 128 128 8; show | line 2: refused
one reader more than fit | loan-pool 4096 128 128 8; publish 0 4294967296 | line 2: refused
a layout | loan-pool 4096 128 128 8; loan 1 1 | line 2: refused
an allocator's line | loan-pool 4096 128 128 8; alloc 1 1 | line 2: refused";

#[test]
fn scripts_that_are_done(rt: HostRuntime) {
    check_rows(&rt, Done, BUMP);
    check_rows(&rt, Done, ONE_CHUNK);
    check_rows(&rt, Done, POOLS);
    check_rows(&rt, Done, STEPS);
    check_rows(&rt, Done, LOANS);
}

#[test]
fn unreadable_scripts(rt: HostRuntime) {
    check_rows(&rt, Unreadable, UNREADABLE);
}

/// Scripts that can't be in a row of a table, each with its status and its output.
const OTHER_BYTES: [(&[u8], Status, &[u8]); 3] = [
    (b"bump 4096 8\nalloc 1 1", Done, b"chunk 4096 1\n"),
    (b"", Unreadable, b"line 1: refused\n"),
    (b"bump 4096 8\n\xff\n", Unreadable, b"line 2: refused\n"),
];

// row: script-empty, script-no-last-line-feed, script-stray-byte
#[test]
fn scripts_of_other_bytes(rt: HostRuntime) {
    for row in &OTHER_BYTES {
        check_at(&rt, ends(rt.alloc(), row.0, row.1, row.2), row.0.len());
    }
}

/// Laws and theorems do nothing, and each is called once.
#[test]
fn the_laws_do_nothing(_rt: HostRuntime) {
    lines_law();
    bump_theorem();
    pool_theorem();
    bb_memory_base::equality::equality_law();
}
