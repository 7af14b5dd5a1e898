//! Typed calls through wrappers that promise only what safety needs, so that a test's own proof
//! carries none of the library's.
mod arenas;
mod buckets;
mod bumps;
mod checks;
mod file_joined;
mod file_words;
mod laws;
mod out_of_memory;
mod slots;
mod threads;
