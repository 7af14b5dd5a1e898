//! Allocators that a script drives: the parts common to all of them, a bump, and a one-chunk
//! allocator.
ghost use Rattle.bb_memory_owned.specs.OneChunk.{StandsFor as OneChunkStandsFor};
ghost use Rattle.bb_memory_traits.specs.BumpObject.{StandsFor as BumpStandsFor};
ghost use Rattle.bb_memory_traits.specs.Chunk.{Chunk};
ghost use Rattle.script_kinds.specs.Allocators.{AllocatorRules, LiveState, bump_rules, live_rules, one_chunk_rules, refusal_name};
ghost use Rattle.std.specs.Prelude.{IfOk, IfSome, List, OnErr, OnOk, Some, [], ◌++◌, ◌≡◌};

use bb_memory_base::allocator::{run_base, run_full};
use bb_memory_bump::bump_allocator::BumpAllocator;
use bb_memory_owned::one_chunk_allocator::OneChunkAllocator;
use bb_memory_traits::allocator::{
    AllocationError, AllocationGrowError, AllocationShrinkError, Command, Reply,
};
use bb_memory_traits::layout::Chunk;
use scripts::driving::ScriptKind;
use scripts::words::{Bounds, Labelled, Numbers, Text, is_word, layout, region, write_labelled};
use std::alloc::{AllocError, Global};
use std::io::Write;
use std::marker::Model;

/// An allocator that a script drives: how it is made from a header, run, and shown.
pub trait ScriptedAllocator: Drop {
    /// The value that a header names.
    type Header: Drop;

    /// The rules of its scripts, except for what all allocators share.
    ghost rules: { AllocatorRules Self Self.Header };

    /// The allocator stands for this live list.
    ghost stands_for: { Self → List Chunk → Type 0 };

    fn read_header(name: &[u8], numbers: Numbers) -> Option<Self::Header>
        ensures written { IfSome result (λ header. rules.is_header header
            × (name.now ≡ rules.name) × (numbers ≡ rules.header_numbers header)) }
        ensures each { (header : Self.Header) → rules.is_header header → name.now ≡ rules.name
            → numbers ≡ rules.header_numbers header → result ≡ Some header };

    fn make(alloc: Global, header: Self::Header) -> Result<Self, AllocError>
        requires { rules.is_header header }
        ensures starts { IfOk result (λ allocator. rules.starts header allocator) }
        ensures empty { IfOk result (λ allocator. stands_for allocator []) };

    fn run(&mut self, live: &mut Vec<Chunk>, commands: &[Command]) -> Result<Vec<Reply>, AllocError>
        requires { stands_for self.old live.old.items }
        ensures run { IfOk result (λ replies.
            rules.runs self.old live.old.items commands.now replies.items self.new live.new.items) }
        ensures stands { OnOk result (stands_for self.new live.new.items) }
        ensures unchanged { OnErr result (self.new ≡ self.old) }
        ensures kept { OnErr result (live.new.items ≡ live.old.items) };

    /// Adds the text of the state to a line.
    fn write_state(&self, live: usize, line: &mut Vec<u8>) -> Result<(), AllocError>
        ensures { OnOk result (line.new.items ≡ line.old.items ++ rules.state_text self.now live) };
}

/// An allocator, and its chunks in use.
#[derive(Drop)]
pub struct WithLiveList<A: ScriptedAllocator> {
    allocator: A,
    live: Vec<Chunk>,
}

impl<A: ScriptedAllocator> Model for WithLiveList<A> {
    ghost Value = { LiveState A };

    ghost view = { λ a. record { allocator = a.allocator; live = a.live.items } };

    ghost invariant = { λ a. A.stands_for a.allocator a.live.items };
}

impl<A: ScriptedAllocator> ScriptKind for WithLiveList<A> {
    type State = WithLiveList<A>;

    type Header = A::Header;

    type Command = Command;

    type Reply = Reply;

    ghost rules = { live_rules A.rules };

    fn can_show() -> bool {
        true
    }

    fn read_header(name: &[u8], numbers: Numbers) -> Option<A::Header> {
        A::read_header(name, numbers)
    }

    fn make(alloc: Global, header: A::Header) -> Result<WithLiveList<A>, AllocError> {
        let allocator = A::make(alloc, header)?;
        let live = Vec::new(alloc);
        Ok(WithLiveList { allocator, live })
    }

    fn read(name: &[u8], numbers: Numbers) -> Option<Command> {
        match numbers {
            Numbers::One(position) if is_word(name, b"free") => Some(Command::Release(position)),
            Numbers::Two(size, align) if is_word(name, b"alloc") => {
                Some(Command::Allocate(layout(size, align)?))
            }
            Numbers::Five(position, old_size, old_align, size, align) => {
                let old = layout(old_size, old_align)?;
                let new = layout(size, align)?;
                if is_word(name, b"grow") {
                    Some(Command::Grow(position, old, new))
                } else if is_word(name, b"shrink") {
                    Some(Command::Shrink(position, old, new))
                } else {
                    None
                }
            }
            _ => None,
        }
    }

    fn run(
        state: &mut WithLiveList<A>,
        _alloc: Global,
        commands: &[Command],
    ) -> Result<Vec<Reply>, AllocError> {
        state.allocator.run(&mut state.live, commands)
    }

    fn reply_text(reply: &Reply) -> Text {
        match reply {
            Reply::Chunk(chunk) => Text::Line(b"chunk", Numbers::Two(chunk.place(), chunk.len())),
            Reply::Released => Text::Name(b"released"),
            Reply::Passed => Text::Name(b"passed"),
            Reply::Refused(error) => Text::Name(refusal(*error)),
            Reply::GrowRefused(AllocationGrowError::GrowWouldShrink) => Text::Name(
                b"GrowWouldShrink",
            ),
            Reply::GrowRefused(AllocationGrowError::AlignmentFailure) => Text::Name(
                b"AlignmentFailure",
            ),
            Reply::GrowRefused(AllocationGrowError::OutOfMemory) => Text::Name(b"OutOfMemory"),
            Reply::ShrinkRefused(AllocationShrinkError::ShrinkWouldGrow) => Text::Name(
                b"ShrinkWouldGrow",
            ),
            Reply::ShrinkRefused(AllocationShrinkError::AlignmentFailure) => Text::Name(
                b"AlignmentFailure",
            ),
            Reply::ShrinkRefused(AllocationShrinkError::SizeIsZero) => Text::Name(b"SizeIsZero"),
        }
    }

    fn write_state(state: &WithLiveList<A>, line: &mut Vec<u8>) -> Result<(), AllocError> {
        state.allocator.write_state(state.live.len(), line)
    }
}

impl ScriptedAllocator for BumpAllocator {
    type Header = Bounds;

    ghost rules = { bump_rules };

    ghost stands_for = { λ bump. BumpStandsFor bump.region bump.used };

    fn read_header(name: &[u8], numbers: Numbers) -> Option<Bounds> {
        region(b"bump", name, numbers)
    }

    fn make(_alloc: Global, header: Bounds) -> Result<Self, AllocError> {
        Ok(BumpAllocator::new(header.start, header.size))
    }

    fn run(&mut self, live: &mut Vec<Chunk>, calls: &[Command]) -> Result<Vec<Reply>, AllocError> {
        run_base(self, live, calls)
    }

    fn write_state(&self, _live: usize, line: &mut Vec<u8>) -> Result<(), AllocError> {
        writeln!(line, "{self}").map_err(|_| AllocError)?;
        let figures = [
            Labelled(b"used ", self.used_space()),
            Labelled(b" free ", self.free_space()),
            Labelled(b" total ", self.total_space()),
        ];
        write_labelled(&figures, b"\n", line)
    }
}

impl ScriptedAllocator for OneChunkAllocator {
    type Header = Bounds;

    ghost rules = { one_chunk_rules };

    ghost stands_for = { OneChunkStandsFor };

    fn read_header(name: &[u8], numbers: Numbers) -> Option<Bounds> {
        region(b"one", name, numbers)
    }

    fn make(_alloc: Global, header: Bounds) -> Result<Self, AllocError> {
        Ok(OneChunkAllocator::new(header.start, header.size))
    }

    fn run(&mut self, live: &mut Vec<Chunk>, calls: &[Command]) -> Result<Vec<Reply>, AllocError> {
        run_full(self, live, calls)
    }

    fn write_state(&self, _live: usize, line: &mut Vec<u8>) -> Result<(), AllocError> {
        let figures = [
            Labelled(b"one start ", self.start_address()),
            Labelled(b" size ", self.size()),
        ];
        if self.has_chunk_available() {
            write_labelled(&figures, b" available yes\n", line)
        } else {
            write_labelled(&figures, b" available no\n", line)
        }
    }
}

/// Returns the name of a refused request's error.
pub fn refusal(error: AllocationError) -> &'static [u8]
    ensures { result.now ≡ refusal_name error }
{
    match error {
        AllocationError::SizeIsZero => b"SizeIsZero",
        AllocationError::SizeTooLarge => b"SizeTooLarge",
        AllocationError::AlignmentFailure => b"AlignmentFailure",
        AllocationError::OutOfMemory => b"OutOfMemory",
    }
}
