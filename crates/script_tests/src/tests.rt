//! Tests of scripts and their output, each a named row of a table; of faults of readers, writers
//! and memory; of the machines that scripts step; and of traces of pools in files.
mod checks;
mod faults;
mod out_of_memory;
mod rows;
mod table;
mod traces;
