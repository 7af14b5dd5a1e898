//! The words of a file, with ample memory and with any one failing request: only `new` and `of_zeros`
//! allocate memory.
use crate::tests::checks::{check, refused};
use crate::tests::file_words::{GEOMETRY, table};
use bb_memory_file::table::FileTable;

#[test]
fn the_words_of_a_file_are_made_or_refused(rt: HostRuntime) {
    match table(rt.alloc(), [0; 10]) {
        Ok(table) => check(&rt, table.party(1).is_some()),
        Err(_) => refused(&rt),
    }
}

#[test]
fn the_words_of_a_new_file_are_made_or_refused(rt: HostRuntime) {
    match FileTable::of_zeros(rt.alloc(), 56, GEOMETRY) {
        Ok(table) => check(&rt, table.party(1).is_some()),
        Err(_) => refused(&rt),
    }
}
