//! The codes that the functions return. 0 means success. Each other number is one reason why the
//! call did nothing.

/// The call succeeded.
pub const OK: u32 = 0;

/// The requested size is 0.
pub const SIZE_IS_ZERO: u32 = 1;

/// The size is greater than the bucket's.
pub const SIZE_TOO_LARGE: u32 = 2;

/// The alignment is greater than the bucket's or, in a resize of the one chunk, than the old one.
pub const ALIGNMENT_FAILURE: u32 = 3;

/// The allocator has no room for the chunk.
pub const OUT_OF_MEMORY: u32 = 4;

/// The new size isn't greater than the old one.
pub const GROW_WOULD_SHRINK: u32 = 5;

/// The new size isn't smaller than the old one.
pub const SHRINK_WOULD_GROW: u32 = 6;
/// The size and the alignment don't make a layout.
pub const INVALID_LAYOUT: u32 = 7;
/// The handle is empty.
pub const UNINITIALIZED: u32 = 8;
/// The place isn't that of a held bucket, or of the allocated chunk. In an attach by number: the
/// named party hasn't detached the bucket by its number.
pub const NOT_HELD: u32 = 9;
/// The handle isn't empty, but has to be for an initialization.
pub const ALREADY_INITIALIZED: u32 = 10;
/// The numbers describe nothing that can be made.
pub const INVALID_ARGUMENT: u32 = 11;
/// Each party has joined, or no party that hasn't joined has the requested number.
pub const NO_PARTY: u32 = 12;
/// The chunk can't have the old layout: its place isn't a multiple of the alignment, or the size is more than is reserved.
pub const LAYOUT_MISMATCH: u32 = 13;
/// `malloc` failed.
pub const MALLOC_REFUSED: u32 = 14;
/// The new size is greater than what is reserved.
pub const MORE_THAN_RESERVED: u32 = 15;
/// The region has no room for one bucket.
pub const NO_BUCKET: u32 = 16;
/// A bucket of the pool is detached.
pub const BUCKET_DETACHED: u32 = 17;
/// Some party hasn't left.
pub const PARTIES_JOINED: u32 = 18;
/// The pool has no other party.
pub const ONE_PARTY: u32 = 19;
/// A detached bucket is already there.
pub const DETACHED_FULL: u32 = 20;
/// No detached bucket is there.
pub const DETACHED_EMPTY: u32 = 21;
/// No bucket has the number, or begins at the place.
pub const NOT_A_BUCKET: u32 = 22;
/// The party belongs to another pool or bump, or the detached bucket to another pool.
pub const OTHER_POOL: u32 = 23;
/// In a file, the bucket is in a slot: the party took its message from there, and isn't done with it.
pub const FILE_NOT_DONE: u32 = 34;
