// A call of a cabinet, with what it is given. The heap comes beside the words, since most that is taken from them needs
// none.
ghost use Rattle.std.specs.Prelude.{◌≡◌};
ghost use Rattle.grammar.specs.Grammar.{leaving, heard_as, UnlessNoMemory};
ghost use Rattle.calls.specs.Calls.{request_in, cycle_in, call_in};
ghost use Rattle.calls.specs.Heard.{cycle_asks, call_asks};

use crate::keyword::CallName;
use crate::number::{take_optional, take_u16};
use grammar::grammar::take_bytes;
use grammar::wrong::Wrong;
use lines::words::Words;
use std::alloc::Global;

// The longest return image that a cycle can be given.
const LONGEST_IMAGE: u16 = 4096;

// An AL request: the control word, and the lengths of the process data that the master counts on.
#[derive(Clone, Copy)]
pub struct AlRequest {
    pub control: u16,
    pub output: u16,
    pub input: u16,
}

// A cycle. The frame is empty where none came; the return image is as long as the cabinet's where no length is given.
#[derive(Drop)]
pub struct Cycle {
    pub frame: Vec<u8>,
    pub records: Vec<u8>,
    pub image: Option<u16>,
}

#[derive(Drop)]
pub enum Call {
    Request(AlRequest),
    Cycle(Cycle),
}

fn take_request(words: &mut Words<'_>) -> Result<AlRequest, Wrong>
    ensures { leaving result words.new ≡ request_in words.old }
{
    Ok(AlRequest {
        control: take_u16(words)?,
        output: take_u16(words)?,
        input: take_u16(words)?,
    })
}

fn take_cycle(heap: Global, words: &mut Words<'_>) -> Result<Cycle, Wrong>
    ensures { UnlessNoMemory (leaving (heard_as cycle_asks result) words.new) (cycle_in words.old) }
{
    Ok(Cycle {
        frame: take_bytes(heap, words)?,
        records: take_bytes(heap, words)?,
        image: take_optional(words, LONGEST_IMAGE)?,
    })
}

#[tactic(auto, unfolding(crate::specs::Calls::call_in))]
pub(crate) fn take_call(heap: Global, name: CallName, words: &mut Words<'_>) -> Result<Call, Wrong>
    ensures { UnlessNoMemory (leaving (heard_as call_asks result) words.new) (call_in name words.old) }
{
    match name {
        CallName::Request => Ok(Call::Request(take_request(words)?)),
        CallName::Cycle => Ok(Call::Cycle(take_cycle(heap, words)?)),
    }
}
