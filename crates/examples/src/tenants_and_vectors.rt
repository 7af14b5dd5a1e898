//! Layers over an allocator: tenants, each with a budget, and a vector of bytes that can move to
//! another region.
#![tactic(auto, unfolding(bb_memory_traits::specs::LeastPlace::least_place))]

ghost use Rattle.layers.specs.ByteVectors.{LivesIn};
ghost use Rattle.std.specs.Prelude.{length, ◌+◌, ◌<◌, ◌≤◌};

use super::bump::forty_eight;
use super::comments::bucket_128;
use bb_memory::allocator::Allocator;
use bb_memory::layout::{Chunk, Layout};
use bb_memory::pool_allocator::FixedSizePoolAllocator;
use bb_memory::region::Region;
use layers::byte_vector::{ByteVec, PushError};
use layers::tenants::{AdmitError, Tenants};
use std::alloc::{AllocError, Global};

/// Two tenants share a pool. The first gets 48 of its 100 bytes, and is refused 101 more, although
/// the pool has them.
pub fn two_tenants(alloc: Global) -> Result<(), AdmitError> {
    let pool = FixedSizePoolAllocator::<8>::new(bucket_128(), 4096, 1024);
    let mut tenants = Tenants::new(alloc, pool, 1024);
    let first = tenants.admit(100)?;
    let second = tenants.admit(900)?;
    prove!(tenants.limit(first) == 100 && tenants.limit(second) == 900);
    if tenants.allocate(first, forty_eight()).is_ok() {
        prove!(tenants.used(first) == 48 && tenants.used(second) == 0);
        let large = Layout::from_size_align(101, 1).unwrap();
        let refused = tenants.allocate(first, large).is_err();
        prove!(refused);
    }
    Ok(())
}

/// A vector in a chunk of any allocator grows by the byte that is pushed.
pub fn pushed_byte<A: Allocator>(
    allocator: &mut A,
    region: &mut Region,
    vector: &mut ByteVec,
) -> Result<(), PushError>
    requires { LivesIn (A.region_of (A.geometry allocator.old)) (A.may_release allocator.old)
        region.old vector.old }
{
    let before = vector.len();
    vector.push(allocator, region, 7)?;
    prove!(vector.len() - before == 1);
    Ok(())
}

/// A vector moves to another region with its bytes.
pub fn moved_vector(alloc: Global, vector: &ByteVec, region: &Region) -> Result<(), AllocError>
    requires inside { vector.now.offset + vector.now.capacity ≤ length region.now.bytes }
    requires some { (0 < vector.now.len) × (vector.now.len ≤ 16) }
{
    let room = Chunk::new(8192, 16).unwrap();
    let mut other = Region::new(8192, vec![in alloc; 0; 64]?);
    let copy = vector.copy_to(region, &mut other, room);
    prove!(copy.get(&other, 0) == vector.get(region, 0));
    Ok(())
}
