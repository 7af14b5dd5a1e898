//! The allocators for C: each exported function makes, uses or frees one in a handle that the host holds. A place is a number,
//! such as the address of a byte in the host's own buffer. No byte there is read or written. `bb_memory.h` declares the
//! functions, and says what a caller has to guarantee.
//!
//! The modules, in the order in which to read them, after those of `bb_memory_c_calls`, which has each call written once:
//!
//! - `handle`: what the host holds, by a type for each kind.
//! - `bump`, `one_chunk`, `pool`: the exported functions of each allocator with one owner.
//! - `shared_bump`, `shared_pool`: what threads share, its parties, and the exported functions of both.
//! - `detached`: buckets that go from party to party, and the exported functions for that.
//! - `file_answer`, `file_party`, `file`: pools in files: their answers, a party of a file with what the parties share, and the
//!   exported functions.
//!
//! Every function of a handle requires of C what `bb_memory.h` lists under "RULES".
#![tactic(auto)]

mod bump;
mod detached;
mod file;
mod file_answer;
mod file_party;
mod handle;
mod one_chunk;
mod pool;
mod shared_bump;
mod shared_pool;
