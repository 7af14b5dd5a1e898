//! Typed calls through wrappers without clauses, so that a test's own proof carries none of the
//! library's. Almost all tests are in `out_of_memory`: with ample memory they are ordinary tests.
mod checks;
mod kinds;
mod out_of_memory;
mod owner;
mod reads;
mod texts;
