// The lines that close a log.
ghost use Rattle.std.specs.Prelude.{string_bytes};
ghost use Rattle.drive_log.specs.Added.{Adds};
ghost use Rattle.replay.specs.Closings.{side_text, parting_text};

use crate::side::Side;
use std::alloc::AllocError;
use std::fmt::Write;

// Adds to the log whether the watch of a side's cabinet ran out, and at which line first.
pub(crate) fn write_run_out(side: &Side, log: &mut String) -> Result<(), AllocError>
    ensures { Adds result (side_text side.now) (string_bytes log.old) (string_bytes log.new) }
{
    let delay = side.delay();
    match side.ran_out() {
        Some(line) => writeln!(log, "delay {delay}: the watch ran out at line {line}"),
        None => writeln!(log, "delay {delay}: the watch did not run out"),
    }
}

// Adds to the log whether two cabinets parted, and at which line first.
pub(crate) fn write_parting(parted: Option<u64>, log: &mut String) -> Result<(), AllocError>
    ensures { Adds result (parting_text parted) (string_bytes log.old) (string_bytes log.new) }
{
    match parted {
        Some(line) => writeln!(log, "the two parted at line {line}"),
        None => writeln!(log, "the two never parted"),
    }
}
