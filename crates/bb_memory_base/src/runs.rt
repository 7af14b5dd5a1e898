//! Runs of commands over any allocator.
ghost use Rattle.bb_memory_base.specs.Runs.{AnswersRun, Applies};
ghost use Rattle.bb_memory_traits.specs.Chunk.{Chunk};
ghost use Rattle.bb_memory_traits.specs.Object.{MayBeGrown, ResizableStep, Step, note_after_run, object_of, resizable_object_of};
ghost use Rattle.bb_memory_traits.specs.declared.allocator.Command.{Command};
ghost use Rattle.bb_memory_traits.specs.declared.allocator.Reply.{Reply};
ghost use Rattle.std.proofs.Common.{subst, subst₂};
ghost use Rattle.std.specs.Prelude.{IfSome, List, None, OnOk, vec_capacity, vec_len, ◌<◌, ◌≡◌};

use bb_memory_traits::allocator::{Allocator, BaseAllocator, Command, Reply};
use bb_memory_traits::layout::{Chunk, Layout};
use std::alloc::AllocError;

/// Applies the commands in order, and returns one reply for each. `live` has the chunks that are in
/// use. An allocation appends its chunk. A release removes its chunk, and the chunks after it move
/// up; if `RELEASE_EMPTIES` is true, a release empties the list. A release of a position that
/// `live` doesn't have is skipped, and so is every resize. Each command changes the allocator as
/// the call itself does.
///
/// The allocator has to stand for the live list. Memory for the replies and for `live` is reserved
/// first, from `live`'s allocator. If memory runs out, the call fails with `AllocError`, which is
/// its only error: no command is applied, and the allocator and the list are unchanged.
///
/// Example: `comments::run_of_a_bump` of `crates/examples`.
pub fn run_base<A: BaseAllocator>(
    allocator: &mut A,
    live: &mut Vec<Chunk>,
    commands: &[Command],
) -> Result<Vec<Reply>, AllocError>
    requires { A.stands_for allocator.old live.old.items }
    ensures run { AnswersRun A.BaseAllocator
        (Step (object_of A.RELEASE_EMPTIES (A.may_allocate (A.geometry allocator.old))))
        commands.now result allocator.old allocator.new live.old.items live.new.items }
    ensures note { OnOk result (A.note allocator.new ≡ note_after_run
        (A.note_after (A.geometry allocator.old)) (A.note allocator.old) commands.now) }
{
    run::<A, Base>(allocator, live, commands)
}

/// Applies the commands in order, including resizes, and returns one reply for each, as
/// [`run_base`] does. A resize replaces its chunk's length in `live`. A resize is skipped if `live`
/// doesn't have the position, if the chunk's place isn't a multiple of the old alignment, or, for a
/// shrink, if the old size exceeds what is reserved for the chunk.
///
/// The allocator has to stand for the live list. If memory runs out, the call fails with
/// `AllocError`, which is its only error, and the allocator and the list are unchanged.
///
/// Example: `comments::run_of_one_chunk` of `crates/examples`.
pub fn run_full<A: Allocator>(
    allocator: &mut A,
    live: &mut Vec<Chunk>,
    commands: &[Command],
) -> Result<Vec<Reply>, AllocError>
    requires { A.stands_for allocator.old live.old.items }
    ensures run { AnswersRun A.BaseAllocator
        (ResizableStep (resizable_object_of
        (A.may_allocate (A.geometry allocator.old)) (A.reserved_at (A.resize_key allocator.old))
        (A.may_grow (A.resize_key allocator.old)) (A.may_shrink (A.resize_key allocator.old))))
        commands.now result allocator.old allocator.new live.old.items live.new.items }
    ensures note { OnOk result (A.note allocator.new ≡ note_after_run
        (A.note_after (A.geometry allocator.old)) (A.note allocator.old) commands.now) }
{
    run::<A, Full>(allocator, live, commands)
}

/// Applies the commands in order, each as `C` does.
fn run<A: BaseAllocator, C: Applier<A>>(
    allocator: &mut A,
    live: &mut Vec<Chunk>,
    commands: &[Command],
) -> Result<Vec<Reply>, AllocError>
    requires { A.stands_for allocator.old live.old.items }
    ensures run { AnswersRun A.BaseAllocator (C.Steps allocator.old)
        commands.now result allocator.old allocator.new live.old.items live.new.items }
    ensures note { OnOk result (A.note allocator.new ≡ note_after_run
        (A.note_after (A.geometry allocator.old)) (A.note allocator.old) commands.now) }
{
    let mut replies = Vec::with_capacity(*live.allocator(), commands.len())?;
    live.reserve(commands.len())?;
    for command in commands {
        let reply = C::apply(allocator, live, *command);
        replies.push_reserved(reply);
    }
    Ok(replies)
}

/// Applies the commands of a run to an allocator of type `A`.
trait Applier<A: BaseAllocator> {
    /// The steps of the object that describes an allocator of this value.
    ghost Steps: { A → List Chunk → Command → Reply → List Chunk → Type 0 };

    /// Applies one command.
    fn apply(allocator: &mut A, live: &mut Vec<Chunk>, command: Command) -> Reply
        requires stands { A.stands_for allocator.old live.old.items }
        requires room { vec_len live.old < vec_capacity live.old }
        ensures { Applies A.BaseAllocator (Steps allocator.old)
            command result allocator.old allocator.new live.old live.new };

    /// Allocators of one geometry have the same steps.
    ghost fixed: { (one other : A) → A.geometry one ≡ A.geometry other
        → (live left : List Chunk) (command : Command) (reply : Reply)
        → Steps one live command reply left → Steps other live command reply left };
}

/// Applies requests and releases, and skips each resize.
struct Base;

impl<A: BaseAllocator> Applier<A> for Base {
    ghost Steps = { λ allocator. Step (object_of A.RELEASE_EMPTIES (A.may_allocate (A.geometry allocator))) };

    fn apply(allocator: &mut A, live: &mut Vec<Chunk>, command: Command) -> Reply {
        match command {
            Command::Allocate(layout) => match allocator.allocate(layout) {
                Ok(chunk) => {
                    live.push_reserved(chunk);
                    Reply::Chunk(chunk)
                }
                Err(error) => Reply::Refused(error),
            },
            Command::Release(position) => {
                let Some(chunk) = live.get(position).copied() else {
                    return Reply::Passed;
                };
                allocator.deallocate(chunk.place(), Layout::empty());
                if A::RELEASE_EMPTIES {
                    live.clear();
                } else {
                    live.remove(position);
                }
                Reply::Released
            }
            Command::Grow(..) | Command::Shrink(..) => Reply::Passed,
        }
    }

    ghost fixed = { λ one other same live left command reply. subst (λ geometry.
        Step (object_of A.RELEASE_EMPTIES (A.may_allocate geometry)) live command reply left) same };
}

/// Applies requests, releases and resizes.
struct Full;

impl<A: Allocator> Applier<A> for Full {
    ghost Steps = { λ allocator. ResizableStep (resizable_object_of (A.may_allocate (A.geometry allocator))
        (A.reserved_at (A.resize_key allocator)) (A.may_grow (A.resize_key allocator))
        (A.may_shrink (A.resize_key allocator))) };

    fn apply(allocator: &mut A, live: &mut Vec<Chunk>, command: Command) -> Reply {
        match command {
            Command::Allocate(_) | Command::Release(_) => Base::apply(allocator, live, command),
            Command::Grow(position, old, new) => apply_grow(allocator, live, position, old, new),
            Command::Shrink(position, old, new) => apply_shrink(
                allocator, live, position, old, new,
            ),
        }
    }

    ghost fixed = { λ one other same live left command reply. subst₂ (λ geometry key.
        ResizableStep (resizable_object_of (A.may_allocate geometry) (A.reserved_at key)
        (A.may_grow key) (A.may_shrink key)) live command reply left)
        same (A.fixed one other same) };
}

/// Returns the chunk at a position of a live list if its place is a multiple of the layout's
/// alignment.
fn aligned_at(live: &[Chunk], position: usize, layout: Layout) -> Option<Chunk>
    ensures there { IfSome result (MayBeGrown live.now position layout) }
    ensures nowhere { result ≡ None → (chunk : Chunk) → ¬ MayBeGrown live.now position layout chunk }
{
    let chunk = live.get(position).copied()?;
    (chunk.place() % layout.align() == 0).then_some(chunk)
}

/// Grows the chunk at a position if its place is a multiple of the old alignment.
fn apply_grow<A: Allocator>(
    allocator: &mut A,
    live: &mut Vec<Chunk>,
    position: usize,
    old: Layout,
    new: Layout,
) -> Reply
    requires stands { A.stands_for allocator.old live.old.items }
    ensures { Applies A.BaseAllocator (ResizableStep (resizable_object_of
        (A.may_allocate (A.geometry allocator.old)) (A.reserved_at (A.resize_key allocator.old))
        (A.may_grow (A.resize_key allocator.old)) (A.may_shrink (A.resize_key allocator.old))))
        (Command.Grow position old new) result allocator.old allocator.new live.old live.new }
{
    let Some(chunk) = aligned_at(live, position, old) else {
        return Reply::Passed;
    };
    match allocator.grow(chunk.place(), old, new) {
        Ok(grown) => {
            live[position] = grown;
            Reply::Chunk(grown)
        }
        Err(error) => Reply::GrowRefused(error),
    }
}

/// Shrinks the chunk at a position if its place is a multiple of the old alignment and the old size
/// is reserved.
fn apply_shrink<A: Allocator>(
    allocator: &mut A,
    live: &mut Vec<Chunk>,
    position: usize,
    old: Layout,
    new: Layout,
) -> Reply
    requires stands { A.stands_for allocator.old live.old.items }
    ensures { Applies A.BaseAllocator (ResizableStep (resizable_object_of
        (A.may_allocate (A.geometry allocator.old)) (A.reserved_at (A.resize_key allocator.old))
        (A.may_grow (A.resize_key allocator.old)) (A.may_shrink (A.resize_key allocator.old))))
        (Command.Shrink position old new) result allocator.old allocator.new live.old live.new }
{
    let Some(chunk) = aligned_at(live, position, old) else {
        return Reply::Passed;
    };
    if old.size() > allocator.reserved(chunk.place()) {
        return Reply::Passed;
    }
    match allocator.shrink(chunk.place(), old, new) {
        Ok(shrunk) => {
            live[position] = shrunk;
            Reply::Chunk(shrunk)
        }
        Err(error) => Reply::ShrinkRefused(error),
    }
}
