// What a line of the bench part says. Small numbers are cast from wider ones, since one function for every type would
// have no equation for its clause; the heap comes beside the words, since most that is taken from them needs none.
ghost use Rattle.std.specs.Prelude.{◌≡◌};
ghost use Rattle.grammar.specs.Grammar.{leaving, UnlessNoMemory};
ghost use Rattle.scenario.specs.Directives.{drive_in, mode_in, record_in, target_in, operation_in, arguments_in, line_says};
ghost use Rattle.scenario.specs.Heard.{heard, heard_line};

use crate::keyword::{Keyword, Verb, read_keyword};
use crate::make::{take_drive, take_value};
use configured::ConfiguredDrive;
use drives::drive::RECORD_LENGTH;
use drives::target::Target;
use grammar::grammar::{take_bytes, take_end, take_signed, take_unsigned};
use grammar::wrong::Wrong;
use lines::words::Words;
use std::alloc::Global;

// An operation on a drive, with what it is given: data of a line, which the bench carries out.
#[derive(Clone, Copy)]
pub enum Operation {
    Energise,
    DeEnergise,
    Hold,
    Sample([u8; RECORD_LENGTH]),
    Take(Target),
}

// A directive of the bench part: one more drive, or an operation on the drive of a number.
#[derive(Drop)]
pub enum Directive {
    Drive(ConfiguredDrive),
    Operate(u8, Operation),
}

#[tactic(auto, unfolding(grammar::specs::Grammar::read_in))]
fn take_number(words: &mut Words<'_>) -> Result<u8, Wrong>
    ensures { leaving result words.new ≡ drive_in words.old }
{
    Ok(take_unsigned(words, 255)? as u8)
}

#[tactic(auto, unfolding(grammar::specs::Grammar::read_in))]
fn take_mode(words: &mut Words<'_>) -> Result<i8, Wrong>
    ensures { leaving result words.new ≡ mode_in words.old }
{
    Ok(take_signed(words, -128, 127)? as i8)
}

#[tactic(auto, unfolding(crate::specs::Directives::target_in))]
fn take_target(words: &mut Words<'_>) -> Result<Target, Wrong>
    ensures { leaving result words.new ≡ target_in words.old }
{
    Ok(Target {
        mode: take_mode(words)?,
        value: take_value(words)?,
    })
}

#[tactic(auto, unfolding(crate::specs::Directives::record_in))]
fn take_record(heap: Global, words: &mut Words<'_>) -> Result<[u8; RECORD_LENGTH], Wrong>
    ensures { UnlessNoMemory (leaving result words.new) (record_in words.old) }
{
    let bytes = take_bytes(heap, words)?;
    <[u8; RECORD_LENGTH]>::try_from(bytes.as_slice()).map_err(|_| Wrong::RecordLength)
}

#[tactic(auto, unfolding(crate::specs::Directives::operation_in))]
fn take_operation(heap: Global, verb: Verb, words: &mut Words<'_>) -> Result<Operation, Wrong>
    ensures { UnlessNoMemory (leaving result words.new) (operation_in verb words.old) }
{
    match verb {
        Verb::Energise => Ok(Operation::Energise),
        Verb::DeEnergise => Ok(Operation::DeEnergise),
        Verb::Hold => Ok(Operation::Hold),
        Verb::Sample => Ok(Operation::Sample(take_record(heap, words)?)),
        Verb::Take => Ok(Operation::Take(take_target(words)?)),
    }
}

#[tactic(auto, unfolding(crate::specs::Directives::arguments_in))]
fn take_arguments(heap: Global, keyword: Keyword, words: &mut Words<'_>) -> Result<Directive, Wrong>
    ensures { UnlessNoMemory (leaving (heard result) words.new) (arguments_in keyword words.old) }
{
    match keyword {
        Keyword::Drive => Ok(Directive::Drive(take_drive(heap, words)?)),
        Keyword::Operation(verb) => {
            let number = take_number(words)?;
            let operation = take_operation(heap, verb, words)?;
            Ok(Directive::Operate(number, operation))
        }
    }
}

// What a line says: a directive, nothing where it has no word, or what is wrong with it. (The cabinet part has a function
// of this shape, and passes over another name: two short functions, and no third over both.)
#[tactic(auto, unfolding(grammar::specs::Grammar::ended))]
pub fn read_directive(heap: Global, line: &[u8]) -> Result<Option<Directive>, Wrong>
    ensures { UnlessNoMemory (heard_line result) (line_says line.now) }
{
    let mut words = Words::of_line(line);
    let Some(name) = words.next() else {
        return Ok(None);
    };
    let keyword = read_keyword(name).ok_or(Wrong::UnknownDirective)?;
    let directive = take_arguments(heap, keyword, &mut words)?;
    take_end(&mut words)?;
    Ok(Some(directive))
}
