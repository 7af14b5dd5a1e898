//! Handles: pointers that own an allocator. There is a type for each kind, since no type with parameters is passed to C. All of
//! them have the same two fields. The host holds a handle in a variable of its own, and passes its address. An empty handle has
//! both fields zero. A handle may be moved, and then the old copy isn't used.
ghost use Rattle.bb_memory_bump.specs.contracts.bump_allocator.BumpAllocator.{the_row as bump_row};
ghost use Rattle.bb_memory_c.specs.contracts.detached.Detached.{the_row as detached_row};
ghost use Rattle.bb_memory_c.specs.contracts.file_party.JoinedFile.{the_row as file_party_row};
ghost use Rattle.bb_memory_c.specs.contracts.file_party.OpenFile.{the_row as file_table_row};
ghost use Rattle.bb_memory_c.specs.contracts.shared_bump.BumpParties.{the_row as shared_bump_row};
ghost use Rattle.bb_memory_c.specs.contracts.shared_bump.JoinedBump.{the_row as bump_party_row};
ghost use Rattle.bb_memory_c.specs.contracts.shared_pool.JoinedPool.{the_row as pool_party_row};
ghost use Rattle.bb_memory_c.specs.contracts.shared_pool.PoolParties.{the_row as shared_pool_row};
ghost use Rattle.bb_memory_c_calls.specs.Handles.{owns_if};
ghost use Rattle.bb_memory_c_calls.specs.contracts.one_owner.Pool.{the_row as pool_row};
ghost use Rattle.bb_memory_owned.specs.contracts.one_chunk_allocator.OneChunkAllocator.{the_row as one_chunk_row};
ghost use Rattle.std.specs.Prelude.{Option};

use crate::detached::Detached;
use crate::file_party::{JoinedFile, OpenFile};
use crate::shared_bump::{BumpParties, JoinedBump};
use crate::shared_pool::{JoinedPool, PoolParties};
use bb_memory_bump::bump_allocator::BumpAllocator;
pub use bb_memory_c_calls::handle::Handle;
use bb_memory_c_calls::held::Held;
use bb_memory_c_calls::one_owner::Pool;
use bb_memory_owned::one_chunk_allocator::OneChunkAllocator;
use std::marker::Model;

/// Empty, or the owner of a bump.
#[repr(C)]
#[derive(Drop)]
pub struct BumpHandle {
    at: *mut u8,
    made: bool,
    pub ghost value: { Option bump_row.Denot },
}

impl Model for BumpHandle {
    ghost also_owns = { λ h. owns_if bump_row h.made h.at h.value };
}

impl Handle<BumpAllocator> for BumpHandle {
    ghost made = { λ h. h.value };

    ghost of = { λ held. record { at = held.at; made = held.made; value = held.value } };

    fn held(&mut self) -> &mut Held<BumpAllocator> {
        unsafe { &mut *(self as *mut Self as *mut Held<BumpAllocator>) }
    }
}

/// Empty, or the owner of a one-chunk allocator.
#[repr(C)]
#[derive(Drop)]
pub struct OneChunkHandle {
    at: *mut u8,
    made: bool,
    pub ghost value: { Option one_chunk_row.Denot },
}

impl Model for OneChunkHandle {
    ghost also_owns = { λ h. owns_if one_chunk_row h.made h.at h.value };
}

impl Handle<OneChunkAllocator> for OneChunkHandle {
    ghost made = { λ h. h.value };

    ghost of = { λ held. record { at = held.at; made = held.made; value = held.value } };

    fn held(&mut self) -> &mut Held<OneChunkAllocator> {
        unsafe { &mut *(self as *mut Self as *mut Held<OneChunkAllocator>) }
    }
}

/// Empty, or the owner of a pool.
#[repr(C)]
#[derive(Drop)]
pub struct PoolHandle {
    at: *mut u8,
    made: bool,
    pub ghost value: { Option pool_row.Denot },
}

impl Model for PoolHandle {
    ghost also_owns = { λ h. owns_if pool_row h.made h.at h.value };
}

impl Handle<Pool> for PoolHandle {
    ghost made = { λ h. h.value };

    ghost of = { λ held. record { at = held.at; made = held.made; value = held.value } };

    fn held(&mut self) -> &mut Held<Pool> {
        unsafe { &mut *(self as *mut Self as *mut Held<Pool>) }
    }
}

/// Empty, or the owner of a shared bump.
#[repr(C)]
#[derive(Drop)]
pub struct SharedBumpHandle {
    at: *mut u8,
    made: bool,
    pub ghost value: { Option shared_bump_row.Denot },
}

impl Model for SharedBumpHandle {
    ghost also_owns = { λ h. owns_if shared_bump_row h.made h.at h.value };
}

impl Handle<BumpParties> for SharedBumpHandle {
    ghost made = { λ h. h.value };

    ghost of = { λ held. record { at = held.at; made = held.made; value = held.value } };

    fn held(&mut self) -> &mut Held<BumpParties> {
        unsafe { &mut *(self as *mut Self as *mut Held<BumpParties>) }
    }
}

/// Empty, or the owner of a party of a shared bump.
#[repr(C)]
#[derive(Drop)]
pub struct BumpPartyHandle {
    at: *mut u8,
    made: bool,
    pub ghost value: { Option bump_party_row.Denot },
}

impl Model for BumpPartyHandle {
    ghost also_owns = { λ h. owns_if bump_party_row h.made h.at h.value };
}

impl Handle<JoinedBump> for BumpPartyHandle {
    ghost made = { λ h. h.value };

    ghost of = { λ held. record { at = held.at; made = held.made; value = held.value } };

    fn held(&mut self) -> &mut Held<JoinedBump> {
        unsafe { &mut *(self as *mut Self as *mut Held<JoinedBump>) }
    }
}

/// Empty, or the owner of a shared pool.
#[repr(C)]
#[derive(Drop)]
pub struct SharedPoolHandle {
    at: *mut u8,
    made: bool,
    pub ghost value: { Option shared_pool_row.Denot },
}

impl Model for SharedPoolHandle {
    ghost also_owns = { λ h. owns_if shared_pool_row h.made h.at h.value };
}

impl Handle<PoolParties> for SharedPoolHandle {
    ghost made = { λ h. h.value };

    ghost of = { λ held. record { at = held.at; made = held.made; value = held.value } };

    fn held(&mut self) -> &mut Held<PoolParties> {
        unsafe { &mut *(self as *mut Self as *mut Held<PoolParties>) }
    }
}

/// Empty, or the owner of a party of a shared pool.
#[repr(C)]
#[derive(Drop)]
pub struct PoolPartyHandle {
    at: *mut u8,
    made: bool,
    pub ghost value: { Option pool_party_row.Denot },
}

impl Model for PoolPartyHandle {
    ghost also_owns = { λ h. owns_if pool_party_row h.made h.at h.value };
}

impl Handle<JoinedPool> for PoolPartyHandle {
    ghost made = { λ h. h.value };

    ghost of = { λ held. record { at = held.at; made = held.made; value = held.value } };

    fn held(&mut self) -> &mut Held<JoinedPool> {
        unsafe { &mut *(self as *mut Self as *mut Held<JoinedPool>) }
    }
}

/// Empty, or the owner of a `Detached`.
#[repr(C)]
#[derive(Drop)]
pub struct DetachedHandle {
    at: *mut u8,
    made: bool,
    pub ghost value: { Option detached_row.Denot },
}

impl Model for DetachedHandle {
    ghost also_owns = { λ h. owns_if detached_row h.made h.at h.value };
}

impl Handle<Detached> for DetachedHandle {
    ghost made = { λ h. h.value };

    ghost of = { λ held. record { at = held.at; made = held.made; value = held.value } };

    fn held(&mut self) -> &mut Held<Detached> {
        unsafe { &mut *(self as *mut Self as *mut Held<Detached>) }
    }
}

/// Empty, or the owner of the words of a file.
#[repr(C)]
#[derive(Drop)]
pub struct FileTableHandle {
    at: *mut u8,
    made: bool,
    pub ghost value: { Option file_table_row.Denot },
}

impl Model for FileTableHandle {
    ghost also_owns = { λ h. owns_if file_table_row h.made h.at h.value };
}

impl Handle<OpenFile> for FileTableHandle {
    ghost made = { λ h. h.value };

    ghost of = { λ held. record { at = held.at; made = held.made; value = held.value } };

    fn held(&mut self) -> &mut Held<OpenFile> {
        unsafe { &mut *(self as *mut Self as *mut Held<OpenFile>) }
    }
}

/// Empty, or the owner of a party of a file.
#[repr(C)]
#[derive(Drop)]
pub struct FilePartyHandle {
    at: *mut u8,
    made: bool,
    pub ghost value: { Option file_party_row.Denot },
}

impl Model for FilePartyHandle {
    ghost also_owns = { λ h. owns_if file_party_row h.made h.at h.value };
}

impl Handle<JoinedFile> for FilePartyHandle {
    ghost made = { λ h. h.value };

    ghost of = { λ held. record { at = held.at; made = held.made; value = held.value } };

    fn held(&mut self) -> &mut Held<JoinedFile> {
        unsafe { &mut *(self as *mut Self as *mut Held<JoinedFile>) }
    }
}

unsafe impl Send for BumpHandle {}

unsafe impl Send for OneChunkHandle {}

unsafe impl Send for PoolHandle {}

unsafe impl Send for SharedBumpHandle {}

unsafe impl Send for BumpPartyHandle {}

unsafe impl Send for SharedPoolHandle {}

unsafe impl Send for PoolPartyHandle {}

unsafe impl Send for DetachedHandle {}

unsafe impl Send for FileTableHandle {}

unsafe impl Send for FilePartyHandle {}
