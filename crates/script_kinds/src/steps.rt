//! Machines that a script drives by their steps.
ghost use Rattle.script_kinds.specs.Steps.{bump_step_rules, pool_step_rules};

use bb_memory_bump_machine::steps::{BumpOutcome, BumpStep, BumpWorld};
use bb_memory_pool_machine::steps::{PoolOutcome, PoolStep, PoolWorld};
use scripts::driving::ScriptKind;
use scripts::words::{
    Bounds, Numbers, PARTIES, Text, is_word, layout, party_of, region, to_u32, write_number,
    write_words,
};
use std::alloc::{AllocError, Global};

/// Scripts that take a bump's steps.
pub struct BumpSteps {}

impl ScriptKind for BumpSteps {
    type State = BumpWorld;

    type Header = Bounds;

    type Command = BumpStep;

    type Reply = BumpOutcome;

    ghost rules = { bump_step_rules };

    fn can_show() -> bool {
        true
    }

    fn read_header(name: &[u8], numbers: Numbers) -> Option<Bounds> {
        region(b"steps-bump", name, numbers)
    }

    fn make(alloc: Global, header: Bounds) -> Result<BumpWorld, AllocError> {
        BumpWorld::new(alloc, header.start, header.size, PARTIES)
    }

    fn read(name: &[u8], numbers: Numbers) -> Option<BumpStep> {
        match numbers {
            Numbers::Zero if is_word(name, b"clear") => Some(BumpStep::Clear),
            Numbers::One(party) => {
                let party = party_of(party)?;
                if is_word(name, b"exchange") {
                    Some(BumpStep::Exchange { party })
                } else if is_word(name, b"load") {
                    Some(BumpStep::Load { party })
                } else {
                    None
                }
            }
            Numbers::Three(party, size, align) if is_word(name, b"read") => {
                let party = party_of(party)?;
                let layout = layout(size, align)?;
                Some(BumpStep::Read { party, layout })
            }
            _ => None,
        }
    }

    fn run(
        world: &mut BumpWorld,
        _alloc: Global,
        steps: &[BumpStep],
    ) -> Result<Vec<BumpOutcome>, AllocError> {
        world.replay(steps)
    }

    fn reply_text(outcome: &BumpOutcome) -> Text {
        match outcome {
            BumpOutcome::Sees(used) => Text::Line(b"sees", Numbers::One(*used)),
            BumpOutcome::RefusedAtRead(used) => Text::Refused(b"sees", Numbers::One(*used)),
            BumpOutcome::Wins(chunk) => {
                Text::Line(b"wins", Numbers::Two(chunk.place(), chunk.len()))
            }
            BumpOutcome::Loses(used) => Text::Line(b"loses", Numbers::One(*used)),
            BumpOutcome::RefusedAtLoss(used) => Text::Refused(b"loses", Numbers::One(*used)),
            BumpOutcome::Loaded(used) => Text::Line(b"used", Numbers::One(*used)),
            BumpOutcome::Cleared => Text::Name(b"cleared"),
            BumpOutcome::Passed => Text::Name(b"passed"),
        }
    }

    fn write_state(world: &BumpWorld, line: &mut Vec<u8>) -> Result<(), AllocError> {
        write_words(b"used", Numbers::One(world.used_space()), b"\n", line)
    }
}

const MOST_BUCKETS: usize = 4096;

/// Scripts that take a pool's steps.
pub struct PoolSteps {}

impl ScriptKind for PoolSteps {
    type State = PoolWorld;

    type Header = u32;

    type Command = PoolStep;

    type Reply = PoolOutcome;

    ghost rules = { pool_step_rules };

    fn can_show() -> bool {
        true
    }

    fn read_header(name: &[u8], numbers: Numbers) -> Option<u32> {
        match numbers {
            Numbers::One(count) if count <= MOST_BUCKETS && is_word(name, b"steps-pool") => {
                Some(count as u32)
            }
            _ => None,
        }
    }

    fn make(alloc: Global, header: u32) -> Result<PoolWorld, AllocError> {
        PoolWorld::new(alloc, header, PARTIES)
    }

    fn read(name: &[u8], numbers: Numbers) -> Option<PoolStep> {
        match numbers {
            Numbers::One(party) if is_word(name, b"try") => {
                let party = party_of(party)?;
                Some(PoolStep::Try { party })
            }
            Numbers::Two(party, bucket) if is_word(name, b"give") => {
                let party = party_of(party)?;
                let bucket = to_u32(bucket)?;
                Some(PoolStep::GiveBack { party, bucket })
            }
            _ => None,
        }
    }

    fn run(
        world: &mut PoolWorld,
        _alloc: Global,
        steps: &[PoolStep],
    ) -> Result<Vec<PoolOutcome>, AllocError> {
        world.replay(steps)
    }

    fn reply_text(outcome: &PoolOutcome) -> Text {
        match outcome {
            PoolOutcome::Takes(bucket) => Text::Line(b"takes", Numbers::One(*bucket as usize)),
            PoolOutcome::Loses(bucket) => Text::Line(b"loses", Numbers::One(*bucket as usize)),
            PoolOutcome::RefusedAtLoss(bucket) => {
                Text::Refused(b"loses", Numbers::One(*bucket as usize))
            }
            PoolOutcome::Gives(bucket) => Text::Line(b"gives", Numbers::One(*bucket as usize)),
            PoolOutcome::Passed => Text::Name(b"passed"),
            PoolOutcome::Misses(bucket) => Text::Line(b"misses", Numbers::One(*bucket as usize)),
            PoolOutcome::Detaches(bucket) => Text::Line(
                b"detaches",
                Numbers::One(*bucket as usize),
            ),
            PoolOutcome::Attaches(bucket) => Text::Line(
                b"attaches",
                Numbers::One(*bucket as usize),
            ),
        }
    }

    fn write_state(world: &PoolWorld, line: &mut Vec<u8>) -> Result<(), AllocError> {
        line.extend_from_slice(b"held")?;
        for bucket in 0..world.number_of_buckets() {
            match world.holder(bucket) {
                Some(party) => write_number(b" ", party as usize, line)?,
                None => line.extend_from_slice(b" -")?,
            }
        }
        line.extend_from_slice(b"\n")
    }
}
