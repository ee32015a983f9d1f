// What a line of the cabinet part says.
ghost use Rattle.std.specs.Prelude.{◌≡◌};
ghost use Rattle.std.specs.Option.{option_map};
ghost use Rattle.grammar.specs.Grammar.{leaving, heard_as, UnlessNoMemory};
ghost use Rattle.calls.specs.Calls.{build_in, arguments_in, cabinet_line_says};
ghost use Rattle.calls.specs.Heard.{cabinet_says};

use crate::call::{Call, take_call};
use crate::keyword::{Keyword, read_keyword};
use crate::number::{take_optional, take_u16};
use grammar::grammar::{take_end, take_unsigned};
use grammar::wrong::Wrong;
use lines::words::Words;
use std::alloc::Global;

// The cabinet that is built: its number and its delay, in cycles. A second delay asks for a second cabinet.
#[derive(Clone, Copy)]
pub struct Build {
    pub number: u32,
    pub delay: u16,
    pub second: Option<u16>,
}

// A directive of the cabinet part: the bank is built into cabinets, or they are called.
#[derive(Drop)]
pub enum CabinetDirective {
    Build(Build),
    Call(Call),
}

fn take_build(words: &mut Words<'_>) -> Result<Build, Wrong>
    ensures { leaving result words.new ≡ build_in words.old }
{
    Ok(Build {
        number: take_unsigned(words, u32::MAX)?,
        delay: take_u16(words)?,
        second: take_optional(words, u16::MAX)?,
    })
}

#[tactic(auto, unfolding(crate::specs::Calls::arguments_in))]
fn take_arguments(
    heap: Global,
    keyword: Keyword,
    words: &mut Words<'_>,
) -> Result<CabinetDirective, Wrong>
    ensures { UnlessNoMemory (leaving (heard_as cabinet_says result) words.new) (arguments_in keyword words.old) }
{
    match keyword {
        Keyword::Cabinet => Ok(CabinetDirective::Build(take_build(words)?)),
        Keyword::Call(name) => Ok(CabinetDirective::Call(take_call(heap, name, words)?)),
    }
}

// What a line says: a directive of the cabinet part, or what is wrong with it. A line that begins with another word,
// or has none, is not of this part. (The bench part has a function of this shape, which tells such a word as wrong: two
// short functions, and no third over both.)
#[tactic(auto, unfolding(grammar::specs::Grammar::ended))]
pub fn read_cabinet_directive(heap: Global, line: &[u8]) -> Result<Option<CabinetDirective>, Wrong>
    ensures { UnlessNoMemory (heard_as (option_map cabinet_says) result) (cabinet_line_says line.now) }
{
    let mut words = Words::of_line(line);
    let Some(keyword) = words.next().and_then(read_keyword) else {
        return Ok(None);
    };
    let directive = take_arguments(heap, keyword, &mut words)?;
    take_end(&mut words)?;
    Ok(Some(directive))
}
