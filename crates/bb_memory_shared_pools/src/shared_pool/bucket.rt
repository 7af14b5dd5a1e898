//! Buckets that parties took.
ghost use Rattle.bb_memory_shared_pools.specs.SharedPool.{chunk_of, taken_bucket};
ghost use Rattle.bb_memory_traits.specs.Chunk.{IsInside};
ghost use Rattle.std.specs.Prelude.{◌<◌, ◌≡◌, ◌≤◌};

use super::flags::Flags;
use bb_memory_traits::layout::Chunk;
use std::marker::Model;

/// The token of a bucket that a party took from a shared pool. The token borrows the pool, and
/// giving the bucket back consumes the token. While the party's log holds the bucket,
/// `by_number::bucket` makes further tokens for it, so a party may have several. After a return by
/// one of them, the others are stale. If a token is dropped, its bucket stays held until another
/// token returns it.
#[derive(Drop)]
pub struct Bucket<'a> {
    pub(super) flags: &'a Flags,
    pub(super) number: u32,
    pub(super) len: usize,
}

impl<'a> Model for Bucket<'a> {
    ghost use Rattle.bb_memory_shared_pools.specs.SharedPool.{TakenBucket, taken_bucket};
    ghost use Rattle.std.specs.Prelude.{◌<◌, ◌≤◌};

    ghost Value = { TakenBucket };

    ghost view = { λ b. taken_bucket b.flags.now b.number b.len };

    ghost invariant = { λ b. (b.number < b.flags.now.scene.geometry.buckets)
        × (b.len ≤ b.flags.now.scene.geometry.bucket.size) };
}

impl<'a> Bucket<'a> {
    /// Returns the bucket's number in its pool, from 0.
    pub fn number(&self) -> u32
        ensures value { result ≡ self.now.number }
        ensures below { result < self.now.allocator.scene.geometry.buckets }
    {
        self.number
    }

    /// Returns the chunk in the bucket. It begins at the bucket's place, and has the token's length, which comes from a
    /// request, `bucket` or a resize.
    pub fn chunk(&self) -> Chunk
        ensures value { result ≡ chunk_of self.now }
        ensures short { result.len ≤ self.now.allocator.scene.geometry.bucket.size }
        ensures inside { IsInside self.now.allocator.scene.geometry.region result }
    {
        self.flags.geometry().chunk(self.number as usize, self.len)
    }
}
