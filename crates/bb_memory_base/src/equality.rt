//! The law of `==` for the types that this crate re-exports.
ghost use Rattle.bb_memory_bump_machine.specs.declared.steps.bump.BumpOutcome.{BumpOutcome};
ghost use Rattle.bb_memory_bump_machine.specs.declared.steps.bump.BumpStep.{BumpStep};
ghost use Rattle.bb_memory_pool_machine.specs.declared.steps.pool.PoolOutcome.{PoolOutcome};
ghost use Rattle.bb_memory_pool_machine.specs.declared.steps.pool.PoolStep.{PoolStep};
ghost use Rattle.bb_memory_traits.specs.Chunk.{Chunk};
ghost use Rattle.bb_memory_traits.specs.declared.allocator.AllocationError.{AllocationError};
ghost use Rattle.bb_memory_traits.specs.declared.allocator.AllocationGrowError.{AllocationGrowError};
ghost use Rattle.bb_memory_traits.specs.declared.allocator.AllocationShrinkError.{AllocationShrinkError};
ghost use Rattle.bb_memory_traits.specs.declared.allocator.Command.{Command};
ghost use Rattle.bb_memory_traits.specs.declared.allocator.Reply.{Reply};
ghost use Rattle.bb_memory_traits.specs.declared.layout.Layout.{Layout};
ghost use Rattle.bb_memory_traits.specs.declared.layout.LayoutError.{LayoutError};
ghost use Rattle.std.specs.Prelude.{IsTrue, ◌↔◌, ◌≡◌};

use crate::allocator::{
    AllocationError, AllocationGrowError, AllocationShrinkError, Command, Reply,
};
use crate::layout::{Chunk, Layout, LayoutError};
use crate::steps::{BumpOutcome, BumpStep, PoolOutcome, PoolStep};

/// States that `==` is true exactly if the two values are the same: the same variant, with the same
/// fields. The function does nothing: its contract is the law.
pub fn equality_law()
    ensures layout { (one other : Layout)
        → IsTrue (⟦<Layout as PartialEq>⟧.eq one other) ↔ (one ≡ other) }
    ensures layout_error { (one other : LayoutError)
        → IsTrue (⟦<LayoutError as PartialEq>⟧.eq one other) ↔ (one ≡ other) }
    ensures chunk { (one other : Chunk)
        → IsTrue (⟦<Chunk as PartialEq>⟧.eq one other) ↔ (one ≡ other) }
    ensures allocation_error { (one other : AllocationError)
        → IsTrue (⟦<AllocationError as PartialEq>⟧.eq one other) ↔ (one ≡ other) }
    ensures grow_error { (one other : AllocationGrowError)
        → IsTrue (⟦<AllocationGrowError as PartialEq>⟧.eq one other) ↔ (one ≡ other) }
    ensures shrink_error { (one other : AllocationShrinkError)
        → IsTrue (⟦<AllocationShrinkError as PartialEq>⟧.eq one other) ↔ (one ≡ other) }
    ensures command { (one other : Command)
        → IsTrue (⟦<Command as PartialEq>⟧.eq one other) ↔ (one ≡ other) }
    ensures reply { (one other : Reply)
        → IsTrue (⟦<Reply as PartialEq>⟧.eq one other) ↔ (one ≡ other) }
    ensures bump_step { (one other : BumpStep)
        → IsTrue (⟦<BumpStep as PartialEq>⟧.eq one other) ↔ (one ≡ other) }
    ensures bump_outcome { (one other : BumpOutcome)
        → IsTrue (⟦<BumpOutcome as PartialEq>⟧.eq one other) ↔ (one ≡ other) }
    ensures pool_step { (one other : PoolStep)
        → IsTrue (⟦<PoolStep as PartialEq>⟧.eq one other) ↔ (one ≡ other) }
    ensures pool_outcome { (one other : PoolOutcome)
        → IsTrue (⟦<PoolOutcome as PartialEq>⟧.eq one other) ↔ (one ≡ other) }
{}
