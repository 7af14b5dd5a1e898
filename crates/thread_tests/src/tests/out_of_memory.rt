//! Calls that have to return a correct result even if any one request for memory fails.
//! `.ci/out-of-memory` runs them with each request failing, one after the other. Making a test's
//! values may fail, too: then the test ends, or makes them again. A call may report that memory ran
//! out only if a request failed.
mod after_making;
mod caching;
mod file_joined;
mod file_words;
