//! Layers. Their contracts state what they return; no contract can exclude an error for memory if
//! no request failed. A failed call changes nothing, so the same call is made again.
ghost use Rattle.bb_memory_owned.specs.Pool.{StandsFor};
ghost use Rattle.bb_memory_traits.specs.Chunk.{region_at};
ghost use Rattle.bb_memory_traits.specs.HeldBytes.{held_region};
ghost use Rattle.std.specs.Prelude.{IfSome, [], ◌≡◌};

use crate::tests::checks::{check, layout, refused, same};
use crate::tests::kinds::fixed_over;
use crate::tests::owner::region_of;
use bb_memory_owned::pool_allocator::FixedSizePoolAllocator;
use bb_memory_traits::allocator::Allocator;
use bb_memory_traits::layout::Layout;
use bb_memory_traits::region::Region;
use layers::slab::Slab;
use layers::tenants::Tenants;
use std::alloc::Global;
use std::process::Abort;

/// Makes a pool of eight buckets of 128 bytes, and its region of 1,024 bytes at 4096, or `None` if
/// memory ran out.
fn buckets(alloc: Global) -> Option<(FixedSizePoolAllocator<16>, Region)>
    ensures empty { IfSome result (λ made. StandsFor made.0.pool []) }
    ensures pool { IfSome result (λ made. made.0.pool.geometry.region ≡ region_at 4096 1024) }
    ensures region { IfSome result (λ made. held_region made.1 ≡ region_at 4096 1024) }
{
    let pool = fixed_over(Layout::from_size_align(128, 1).ok()?, 4096, 1024)?;
    let region = region_of(alloc, 4096, 1024, 0)?;
    Some((pool, region))
}

/// Keeps a record, a second time if memory ran out: then the slab has its old number of records.
fn keeps<A: Allocator + Drop>(rt: &(impl Abort + AllocGlobal), slab: &mut Slab<A>, record: &[u8]) {
    let len = slab.len();
    if slab.insert(record).is_err() {
        refused(rt);
        same(rt, slab.len(), len);
        check(rt, slab.insert(record).is_ok());
    }
    check(rt, len < slab.len() && slab.read(len) == record);
}

/// Keeps two records.
fn keeps_two<A: Allocator + Drop>(rt: &(impl Abort + AllocGlobal), allocator: A, region: Region)
    requires fresh { A.stands_for allocator [] }
    requires same_region { held_region region ≡ A.region_of (A.geometry allocator) }
{
    let mut slab = Slab::new(rt.alloc(), allocator, region);
    keeps(rt, &mut slab, b"123");
    keeps(rt, &mut slab, b"45");
    check(rt, slab.len() == 2 && slab.read(0) == b"123".as_slice());
}

#[test]
fn a_slab(rt: HostRuntime) {
    let Some((pool, region)) = buckets(rt.alloc()) else {
        return refused(&rt);
    };
    keeps_two(&rt, pool, region);
}

/// Admits a tenant with a limit, and allocates 100 bytes for it, each a second time if memory ran
/// out.
fn admits<A: Allocator + Drop>(
    rt: &(impl Abort + AllocGlobal),
    tenants: &mut Tenants<A>,
    tenant: usize,
) {
    if tenants.admit(100).is_err() {
        refused(rt);
        check(rt, tenants.admit(100).is_ok());
    }
    let (out, hundred) = (tenants.out(), layout(rt, 100, 1));
    if tenants.allocate(tenant, hundred).is_err() {
        refused(rt);
        same(rt, tenants.out(), out);
        check(rt, tenants.allocate(tenant, hundred).is_ok());
    }
}

/// Admits two tenants.
fn admits_two<A: Allocator + Drop>(rt: &(impl Abort + AllocGlobal), allocator: A)
    requires { A.stands_for allocator [] }
{
    let mut tenants = Tenants::new(rt.alloc(), allocator, 200);
    admits(rt, &mut tenants, 0);
    admits(rt, &mut tenants, 1);
    same(rt, (tenants.used(1), tenants.out()), (100, 200));
}

#[test]
fn tenants_of_a_pool(rt: HostRuntime) {
    let Some((pool, _region)) = buckets(rt.alloc()) else {
        return refused(&rt);
    };
    admits_two(&rt, pool);
}
