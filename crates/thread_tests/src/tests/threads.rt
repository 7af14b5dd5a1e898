//! Threads over one shared allocator. Each thread gets a party, and returns it.
mod bumps;
mod pools;
mod queues;
mod workers;
