// The lines of a call.
ghost use Rattle.std.specs.Prelude.{None, string_bytes};
ghost use Rattle.drive_log.specs.Added.{Adds};
ghost use Rattle.call_log.specs.CallTexts.{both_text, call_text};

use std::alloc::AllocError;
use std::fmt::Write;

// What a call answers, and the lines below it, which show how the cabinet stands.
#[derive(Debug, PartialEq, Eq, Drop)]
pub struct Lines {
    pub answer: String,
    pub below: String,
}

// A call, by its line in the scenario and its directive.
#[derive(Clone, Copy)]
pub struct Heading<'a> {
    pub number: u64,
    pub directive: &'a str,
}

// Adds the lines of a call to the log, with the delay after the directive where one is given.
fn write_call(
    heading: Heading<'_>,
    delay: Option<u16>,
    lines: &Lines,
    log: &mut String,
) -> Result<(), AllocError>
    ensures { Adds result (call_text heading.entry.number heading.entry.directive.now delay lines.now) (string_bytes log.old) (string_bytes log.new) }
{
    let Heading { number, directive } = heading;
    let Lines { answer, below } = lines;
    match delay {
        Some(delay) => write!(
            log,
            "{number} {directive} with delay {delay}: {answer}\n{below}"
        ),
        None => write!(log, "{number} {directive}: {answer}\n{below}"),
    }
}

// Adds the lines of a call to one cabinet.
pub fn write_lines(heading: Heading<'_>, lines: &Lines, log: &mut String) -> Result<(), AllocError>
    ensures { Adds result (call_text heading.entry.number heading.entry.directive.now None lines.now) (string_bytes log.old) (string_bytes log.new) }
{
    write_call(heading, None, lines, log)
}

// A cabinet of two, by its delay, and its lines.
#[derive(Clone, Copy)]
pub struct DelayedLines<'a> {
    pub delay: u16,
    pub lines: &'a Lines,
}

// Adds the lines of a call to two cabinets: once where they are the same, else for the first and then for the second.
pub fn write_both_lines(
    heading: Heading<'_>,
    first: DelayedLines<'_>,
    second: DelayedLines<'_>,
    log: &mut String,
) -> Result<(), AllocError>
    ensures { Adds result (both_text heading.entry.number heading.entry.directive.now first.entry.delay first.entry.lines.now second.entry.delay second.entry.lines.now) (string_bytes log.old) (string_bytes log.new) }
{
    if first.lines == second.lines {
        return write_call(heading, None, first.lines, log);
    }
    write_call(heading, Some(first.delay), first.lines, log)?;
    write_call(heading, Some(second.delay), second.lines, log)
}
