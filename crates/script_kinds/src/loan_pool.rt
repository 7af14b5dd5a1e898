//! A loan book over a pool that a script drives.
ghost use Rattle.script_kinds.specs.LoanPool.{loan_pool_rules, loan_refusal_name};
ghost use Rattle.std.specs.Prelude.{◌≡◌};

use crate::allocators::{ScriptedAllocator, refusal};
use crate::pool::{PoolPlan, pool_plan};
use bb_memory_owned::pool_allocator::PoolAllocator;
use loan_book::{LoanBook, LoanCall, LoanError, LoanReply, run_loans};
use scripts::driving::ScriptKind;
use scripts::words::{Numbers, Text, is_word, to_u32};
use std::alloc::{AllocError, Global};

/// Scripts that drive a loan book over a pool.
pub struct LoanPool {}

impl ScriptKind for LoanPool {
    type State = LoanBook<PoolAllocator<Global>>;

    type Header = PoolPlan;

    type Command = LoanCall;

    type Reply = LoanReply;

    ghost rules = { loan_pool_rules };

    fn can_show() -> bool {
        false
    }

    fn read_header(name: &[u8], numbers: Numbers) -> Option<PoolPlan> {
        pool_plan(b"loan-pool", name, numbers)
    }

    fn make(alloc: Global, header: PoolPlan) -> Result<Self::State, AllocError> {
        let pool = <PoolAllocator<Global> as ScriptedAllocator>::make(alloc, header)?;
        Ok(LoanBook::new(alloc, pool))
    }

    fn read(name: &[u8], numbers: Numbers) -> Option<LoanCall> {
        match numbers {
            Numbers::One(number) => {
                if is_word(name, b"loan") {
                    Some(LoanCall::Loan(number))
                } else if is_word(name, b"back") {
                    Some(LoanCall::GiveBack(number as u64))
                } else if is_word(name, b"out") {
                    Some(LoanCall::IsOut(number as u64))
                } else {
                    None
                }
            }
            Numbers::Two(id, readers) if is_word(name, b"publish") => {
                Some(LoanCall::Publish(id as u64, to_u32(readers)?))
            }
            _ => None,
        }
    }

    fn run(
        book: &mut Self::State,
        alloc: Global,
        calls: &[LoanCall],
    ) -> Result<Vec<LoanReply>, AllocError> {
        let replies = run_loans(alloc, book, calls)?;
        if replies.contains(&LoanReply::Refused(LoanError::Memory)) {
            return Err(AllocError);
        }
        Ok(replies)
    }

    fn reply_text(reply: &LoanReply) -> Text {
        match reply {
            LoanReply::Loaned(id, chunk) => {
                let numbers = Numbers::Three(*id as usize, chunk.place(), chunk.len());
                Text::Line(b"loan", numbers)
            }
            LoanReply::Published => Text::Name(b"published"),
            LoanReply::Returned => Text::Name(b"returned"),
            LoanReply::Kept => Text::Name(b"kept"),
            LoanReply::Out(true) => Text::Name(b"yes"),
            LoanReply::Out(false) => Text::Name(b"no"),
            LoanReply::Refused(error) => Text::Name(loan_refusal(*error)),
        }
    }

    fn write_state(_: &Self::State, _: &mut Vec<u8>) -> Result<(), AllocError> {
        Ok(())
    }
}

fn loan_refusal(error: LoanError) -> &'static [u8]
    ensures { result.now ≡ loan_refusal_name error }
{
    match error {
        LoanError::Size => b"Size",
        LoanError::IdsExhausted => b"IdsExhausted",
        LoanError::Memory => b"Memory",
        LoanError::Allocation(error) => refusal(error),
        LoanError::UnknownSample => b"UnknownSample",
        LoanError::AlreadyPublished => b"AlreadyPublished",
        LoanError::NoReaders => b"NoReaders",
    }
}
