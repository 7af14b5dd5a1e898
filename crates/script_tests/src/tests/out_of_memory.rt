//! Scripts and replays that have to end correctly even if any one request for memory fails.
//! `.ci/out-of-memory` runs each test with its first request failing, then its second, and so on,
//! until none is left to fail.
mod after_making;
mod file_worlds;
mod running;
mod worlds;
