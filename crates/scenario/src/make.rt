// The drive that words describe.
ghost use Rattle.std.specs.Prelude.{◌≡◌};
ghost use Rattle.grammar.specs.Grammar.{leaving, UnlessNoMemory};
ghost use Rattle.scenario.specs.Makes.{value_in, hoist_in, cylinder_in, named_in, limits_in, make_in};
ghost use Rattle.scenario.specs.Described.{make_described, drive_described};

use configured::ConfiguredDrive;
use configured::make::AnyMake;
use cylinders::scale::Scale;
use drives::made::MadeDrive;
use grammar::grammar::{take_signed, take_unsigned, take_word};
use grammar::wrong::Wrong;
use hoists::hoist::HoistMake;
use lines::words::Words;
use stacks::stack::{Enclosure, Stack};
use std::alloc::Global;
use windows::window::Limits;

// A signed 32-bit number.
pub(crate) fn take_value(words: &mut Words<'_>) -> Result<i32, Wrong>
    ensures { leaving result words.new ≡ value_in words.old }
{
    take_signed(words, i32::MIN, i32::MAX)
}

fn take_hoist(words: &mut Words<'_>) -> Result<AnyMake, Wrong>
    ensures { leaving (make_described result) words.new ≡ hoist_in words.old }
{
    let lowest = take_value(words)?;
    let highest = take_value(words)?;
    let speed = take_unsigned(words, u32::MAX)?;
    Ok(AnyMake::Hoist(HoistMake::new(lowest, highest, speed)))
}

fn take_cylinder(words: &mut Words<'_>) -> Result<AnyMake, Wrong>
    ensures { leaving (make_described result) words.new ≡ cylinder_in words.old }
{
    let k = take_unsigned(words, u32::MAX)?;
    Ok(AnyMake::Cylinder(Scale::new(k)))
}

#[tactic(auto, unfolding(crate::specs::Makes::named_in))]
fn take_named(name: &[u8], words: &mut Words<'_>) -> Result<AnyMake, Wrong>
    ensures { leaving (make_described result) words.new ≡ named_in name.now words.old }
{
    match name {
        b"hoist" => take_hoist(words),
        b"cylinder" => take_cylinder(words),
        _ => Err(Wrong::UnknownMake),
    }
}

#[tactic(auto, unfolding(crate::specs::Makes::limits_in))]
fn take_limits(words: &mut Words<'_>) -> Result<Limits, Wrong>
    ensures { leaving result words.new ≡ limits_in words.old }
{
    Ok(Limits {
        low: take_value(words)?,
        high: take_value(words)?,
    })
}

// A drive: any number of windows, the outermost first, and then a make.
pub(crate) fn take_drive(heap: Global, words: &mut Words<'_>) -> Result<ConfiguredDrive, Wrong>
    ensures { UnlessNoMemory (leaving (drive_described result) words.new) (make_in words.old) }
{
    let mut limits = Vec::new(heap);
    loop {
        match take_word(words)? {
            b"window" => limits.push(take_limits(words)?)?,
            name => {
                let make = take_named(name, words)?;
                limits.reverse();
                let windows = Enclosure::new(limits);
                return Ok(Stack::over(windows, MadeDrive::new(make)));
            }
        }
    }
}
