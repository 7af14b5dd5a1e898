//! Calls that allocate no memory, each on values that were made before. The sweep also runs these
//! tests with each request failing that comes after the values were made. Every call has to return
//! what it returns with ample memory, without a request.
//! row: calls-that-take-no-memory
mod caching;
mod fixed;
mod shared_bumps;
mod shared_pools;
