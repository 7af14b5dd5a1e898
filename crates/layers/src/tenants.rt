//! Tenants of one allocator, each with a limit of its own.
ghost use Rattle.bb_memory_traits.specs.Chunk.{IsInside, IsSound};
ghost use Rattle.layers.specs.Tenancies.{AdmitFails, HasLeft, IsRefusedUnasked, LeaseFails, bytes_for, bytes_out, chunks_of, lease_at, limit_of, used_by, without_lease};
ghost use Rattle.layers.specs.declared.tenants.Lease.{Lease};
ghost use Rattle.std.specs.Prelude.{IfErr, IfOk, IfSome, IsOk, IsSome, IsTrue, List, Ok, OnErr, OnOk, Some, [], length, remove, slice_get, slice_index_or, sum, ℕ, ◌%◌, ◌++◌, ◌+◌, ◌<◌, ◌↔◌, ◌∷◌, ◌≡◌, ◌≤◌};

use crate::slab::{self, return_last};
use bb_memory_lists::lists::{Grouped, append_law, group_law, map_law, sum_law};
use bb_memory_traits::allocator::{AllocationError, Allocator, BaseAllocator};
use bb_memory_traits::layout::{Chunk, Layout};
use std::alloc::{AllocError, Global};
use std::marker::Model;
use thiserror::Error;

/// The reasons why `admit` fails.
#[derive(Debug, Drop, Error)]
pub enum AdmitError {
    /// All limits together would exceed the whole.
    #[error("the limits would exceed the whole")]
    OverWhole,
    /// Memory for the list of limits ran out.
    #[error("no memory for the list of limits")]
    List(AllocError),
}

/// The reasons why `allocate` fails.
#[derive(Debug, Drop, Error)]
pub enum LeaseError {
    /// No tenant has the number.
    #[error("no tenant has this number")]
    NoTenant,
    /// The requested bytes would exceed the tenant's limit.
    #[error("the tenant's limit would be exceeded")]
    OverLimit,
    /// Memory for the list of leases ran out.
    #[error("no memory for the list of leases")]
    List(AllocError),
    /// The allocator refused the request, with this error.
    #[error("no chunk: {0}")]
    Refused(AllocationError),
    /// The allocator gave a chunk so long that the tenant's limit would be exceeded.
    #[error("the allocator gave a longer chunk than asked, which exceeds the tenant's limit")]
    TooLong,
}

/// The reason why `deallocate` fails: the tenant holds no chunk at the place.
#[derive(Debug, Drop, Error)]
#[error("the tenant holds no chunk at this place")]
pub struct NotHeld {}

/// A chunk that is in use, and the number of the tenant that holds it.
#[derive(Clone, Copy)]
pub struct Lease {
    pub tenant: usize,
    pub chunk: Chunk,
}

impl Grouped for Lease {
    ghost group = { λ lease. lease.tenant };

    ghost measure = { λ lease. lease.chunk.len };
}

impl Lease {
    /// Returns how many of the lease's bytes are this tenant's: all or none.
    fn bytes_for(&self, tenant: usize) -> usize
        ensures { result ≡ bytes_for tenant self.now }
    {
        if self.tenant == tenant {
            self.chunk.len()
        } else {
            0
        }
    }
}

/// Tenants that share an allocator. Each is named by its number, from 0 in the order of their
/// admission, and has a limit in bytes, which its chunks together never exceed. All limits together
/// are at most a whole, which `new` fixes.
///
/// Example: `tenants_and_vectors::two_tenants` of `crates/examples`.
#[derive(Drop)]
pub struct Tenants<A: Allocator + Drop> {
    allocator: A,
    whole: usize,
    promised: usize,
    limits: Vec<usize>,
    leases: Vec<Lease>,
}

impl<A: Allocator + Drop> Model for Tenants<A> {
    ghost use Rattle.layers.specs.Tenancies.{Tenancy, chunks_of, limit_of, used_by};
    ghost use Rattle.std.specs.Prelude.{sum, ℕ, ◌≡◌, ◌≤◌};

    // The value of tenants: their allocator, the whole, the limit of each, and the chunks that they
    // hold.
    ghost Value = { Tenancy A };

    ghost view = { λ t. record {
      allocator = t.allocator;
      whole = t.whole;
      limits = t.limits.items;
      leases = t.leases.items;
    } };

    ghost invariant = { λ t. A.stands_for t.allocator (chunks_of t.leases.items)
        × (t.promised ≡ sum t.limits.items) × (t.promised ≤ t.whole)
        × ((tenant : ℕ) → used_by tenant t.leases.items ≤ limit_of t.limits.items tenant) };
}

impl<A: Allocator + Drop> Tenants<A> {
    /// Makes a tenancy without tenants. The allocator must have no chunk in use, and all limits
    /// together will be at most `whole` bytes.
    pub fn new(alloc: Global, allocator: A, whole: usize) -> Self
        requires fresh { A.stands_for allocator [] }
        ensures empty { result
            ≡ record { allocator = allocator; whole = whole; limits = []; leases = [] } }
    {
        Tenants {
            allocator,
            whole,
            promised: 0,
            limits: Vec::new(alloc),
            leases: Vec::new(alloc),
        }
    }

    /// Admits a tenant with a limit in bytes, and returns its number. Fails with `OverWhole`
    /// exactly if all limits together would exceed the whole, and otherwise with `List` if memory
    /// ran out.
    pub fn admit(&mut self, limit: usize) -> Result<usize, AdmitError>
        ensures number { IfOk result (λ number. number ≡ length self.old.limits) }
        ensures within { OnOk result (sum self.old.limits + limit ≤ self.old.whole) }
        ensures admitted { OnOk result
            (self.new ≡ record self.old { limits = self.old.limits ++ limit ∷ [] }) }
        ensures refused { IfErr result (AdmitFails self.old limit) }
        ensures unchanged { OnErr result (self.new ≡ self.old) }
    {
        if limit > self.whole - self.promised {
            return Err(AdmitError::OverWhole);
        }
        self.limits.reserve(1).map_err(AdmitError::List)?;
        let number = self.limits.len();
        sum_law::<usize>();
        append_law::<usize>();
        self.limits.push_reserved(limit);
        self.promised += limit;
        Ok(number)
    }

    /// Returns the whole: the most bytes that all limits together may have.
    pub fn whole(&self) -> usize
        ensures value { result ≡ self.now.whole }
        ensures within { sum self.now.limits ≤ result }
    {
        self.whole
    }

    /// Returns a tenant's limit in bytes, or 0 for a number that isn't a tenant's.
    pub fn limit(&self, tenant: usize) -> usize
        ensures { result ≡ limit_of self.now.limits tenant }
    {
        self.limits.get(tenant).copied().unwrap_or(0)
    }

    /// Returns how many bytes a tenant uses: those of the chunks that it holds, which are within
    /// its limit.
    pub fn used(&self, tenant: usize) -> usize
        ensures value { result ≡ used_by tenant self.now.leases }
        ensures within { result ≤ limit_of self.now.limits tenant }
    {
        // Proof hint: the sum is within the limit, which is a `usize`.
        let _limit = self.limit(tenant);
        self.leases
            .iter()
            .map(|lease| lease.bytes_for(tenant))
            .sum()
    }

    /// Returns how many bytes are in use: those of all chunks that the allocator has given. The
    /// number is the sum of what each tenant uses, and at most the whole.
    pub fn out(&self) -> usize
        ensures value { result ≡ bytes_out self.now.leases }
        ensures within { result ≤ self.now.whole }
        ensures together { (used : List ℕ)
            → ((tenant : ℕ) → used_by tenant self.now.leases ≡ slice_index_or used tenant 0)
            → result ≡ sum used }
    {
        group_law::<Lease>();
        out_within(&self.leases, self.promised)
    }

    /// Returns whether a tenant holds the chunk at a place.
    pub fn holds(&self, tenant: usize, place: usize) -> bool
        ensures { IsTrue result ↔ IsSome (lease_at tenant place self.now.leases) }
    {
        lease_of(&self.leases, tenant, place).is_some()
    }

    /// Requests a chunk for a tenant. Fails with the first of these errors that applies:
    ///
    /// - `NoTenant` if no tenant has the number.
    /// - `OverLimit` exactly if the requested bytes would exceed the tenant's limit.
    /// - `List` if memory ran out.
    /// - `Refused` if the allocator refuses the layout.
    /// - `TooLong` if the allocator gives a chunk so much longer that the limit would be exceeded.
    ///   The chunk is then given back.
    ///
    /// A refusal changes nothing. The allocator gets one request, and only after the first three
    /// tests.
    pub fn allocate(&mut self, tenant: usize, layout: Layout) -> Result<Chunk, LeaseError>
        ensures given { IfOk result (λ chunk. A.may_allocate (A.geometry self.old.allocator)
            (chunks_of self.old.leases) layout (Ok chunk)) }
        ensures inside { IfOk result
            (IsInside (A.region_of (A.geometry self.old.allocator))) }
        ensures aligned { IfOk result (λ chunk. chunk.place % layout.align ≡ 0) }
        ensures long_enough { IfOk result (λ chunk. layout.size ≤ chunk.len) }
        ensures within { IfOk result (λ chunk. HasLeft self.old tenant chunk.len) }
        ensures leased { IfOk result (λ chunk. self.new ≡ record self.old {
          allocator = self.new.allocator;
          leases = self.old.leases ++ record { tenant = tenant; chunk = chunk } ∷ [];
        }) }
        ensures refused { IfErr result (LeaseFails
            (A.may_allocate (A.geometry self.old.allocator) (chunks_of self.old.leases))
            self.old tenant layout) }
        ensures unasked { IfErr result (λ error. IsRefusedUnasked error → self.new ≡ self.old) }
        ensures asked_once { IfErr result (λ error. ¬ IsRefusedUnasked error)
            → A.note self.new.allocator ≡ A.note_after
            (A.geometry self.old.allocator) layout (A.note self.old.allocator) }
        ensures unchanged { OnErr result
            (self.new ≡ record self.old { allocator = self.new.allocator }) }
        ensures geometry { A.geometry self.new.allocator ≡ A.geometry self.old.allocator }
    {
        let left = self.left_for(tenant, layout)?;
        self.leases.reserve(1).map_err(LeaseError::List)?;
        let given = self.allocator.allocate(layout);
        let chunk = given.map_err(LeaseError::Refused)?;
        if chunk.len() > left {
            return_last(&mut self.allocator, chunk, layout);
            return Err(LeaseError::TooLong);
        }
        sum_law::<Lease>();
        map_law::<Lease, Chunk>();
        self.leases.push_reserved(Lease { tenant, chunk });
        Ok(chunk)
    }

    /// Returns how many bytes are left of a tenant's limit, if these are enough for a layout.
    fn left_for(&self, tenant: usize, layout: Layout) -> Result<usize, LeaseError>
        ensures left { IfOk result
            (λ left. used_by tenant self.now.leases + left ≡ limit_of self.now.limits tenant) }
        ensures enough { OnOk result (HasLeft self.now tenant layout.size) }
        ensures unasked { IfErr result IsRefusedUnasked }
        ensures refused { IfErr result (LeaseFails
            (A.may_allocate (A.geometry self.now.allocator) (chunks_of self.now.leases))
            self.now tenant layout) }
    {
        if tenant >= self.limits.len() {
            return Err(LeaseError::NoTenant);
        }
        let left = self.limit(tenant) - self.used(tenant);
        if layout.size() > left {
            return Err(LeaseError::OverLimit);
        }
        Ok(left)
    }

    /// Gives back the chunk at a place, if the tenant holds it. Otherwise the call fails, and
    /// nothing changes. The allocator gets no request.
    pub fn deallocate(&mut self, tenant: usize, place: usize) -> Result<(), NotHeld>
        ensures held { IsOk result ↔ IsSome (lease_at tenant place self.old.leases) }
        ensures returned { IfSome (lease_at tenant place self.old.leases) (λ position.
            self.new ≡ without_lease self.old self.new.allocator position) }
        ensures unchanged { OnErr result (self.new ≡ self.old) }
        ensures geometry { A.geometry self.new.allocator ≡ A.geometry self.old.allocator }
        ensures unasked { A.note self.new.allocator ≡ A.note self.old.allocator }
    {
        let Some(position) = lease_of(&self.leases, tenant, place) else {
            return Err(NotHeld {});
        };
        self.end_lease(position);
        Ok(())
    }

    /// Gives back the chunk of the lease at a position.
    fn end_lease(&mut self, position: usize)
        requires { position < length self.old.leases }
        ensures returned { self.new ≡ without_lease self.old self.new.allocator position }
        ensures geometry { A.geometry self.new.allocator ≡ A.geometry self.old.allocator }
        ensures unasked { A.note self.new.allocator ≡ A.note self.old.allocator }
    {
        let lease = self.leases[position];
        give_back(&mut self.allocator, &self.leases, position, lease);
        sum_law::<Lease>();
        self.leases.remove(position);
    }

    /// Does nothing: its contract is the proof that the allocator stands for exactly the chunks
    /// that the tenants hold. So these chunks are inside the allocator's region, and no two
    /// overlap.
    pub fn law(&self)
        ensures stands { A.stands_for self.now.allocator (chunks_of self.now.leases) }
        ensures sound { IsSound (A.region_of (A.geometry self.now.allocator))
            (chunks_of self.now.leases) }
    {
        let _ = &self.leases;
    }
}

/// Returns how many bytes the leases have. They are within what is promised.
fn out_within(leases: &Vec<Lease>, promised: usize) -> usize
    requires { bytes_out leases.now.items ≤ promised }
    ensures value { result ≡ bytes_out leases.now.items }
    ensures within { result ≤ promised }
{
    let _ = promised;
    leases.iter().map(|lease| lease.chunk.len()).sum()
}

/// Returns the position of the lease of the chunk at a place, if the tenant holds it.
fn lease_of(leases: &Vec<Lease>, tenant: usize, place: usize) -> Option<usize>
    ensures first { result ≡ lease_at tenant place leases.now.items }
    ensures there { IfSome result (λ position. (lease : Lease)
        × (slice_get leases.now.items position ≡ Some lease)
        × (lease.tenant ≡ tenant) × (lease.chunk.place ≡ place)) }
{
    leases.iter().position(|lease| lease.tenant == tenant && lease.chunk.place() == place)
}

/// Gives the chunk of the lease at a position back to the allocator.
fn give_back<A: Allocator>(allocator: &mut A, leases: &Vec<Lease>, position: usize, lease: Lease)
    requires stands { A.stands_for allocator.old (chunks_of leases.now.items) }
    requires there { slice_get leases.now.items position ≡ Some lease }
    ensures stands { A.stands_for allocator.new (chunks_of (remove leases.now.items position)) }
    ensures geometry { A.geometry allocator.new ≡ A.geometry allocator.old }
    ensures unasked { A.note allocator.new ≡ A.note allocator.old }
{
    map_law::<Lease, Chunk>();
    slab::give_back(allocator, lease.chunk);
}
