// How a cabinet stands.
ghost use Rattle.std.specs.Prelude.{string_bytes};
ghost use Rattle.cabinet.specs.Cabinets.{standing};
ghost use Rattle.drive_log.specs.Added.{Adds};
ghost use Rattle.cabinet_log.specs.CabinetTexts.{axis_line, spare_text, standing_text};

use crate::line::{AlLine, AxisLine};
use banks::bank::Bank;
use cabinet::cabinet::Cabinet;
use drive_log::drive::ShownDrive;
use std::alloc::AllocError;
use std::fmt::Write;

// Adds the line of an axis to the log.
#[tactic(auto, unfolding(crate::specs::CabinetTexts::axis_line))]
fn write_axis<B: Bank>(cabinet: &Cabinet<B>, number: u8, log: &mut String) -> Result<(), AllocError>
    ensures { Adds result (axis_line (standing B.meanings cabinet.now) number) (string_bytes log.old) (string_bytes log.new) }
{
    let Some(axis) = cabinet.axis(number) else {
        return Ok(());
    };
    let line = AxisLine { number, axis };
    writeln!(log, "{line}")
}

// Adds to the log how the cabinet stands: AL, and below it each axis.
pub fn write_standing<B: Bank>(cabinet: &Cabinet<B>, log: &mut String) -> Result<(), AllocError>
    ensures { Adds result (standing_text (standing B.meanings cabinet.now)) (string_bytes log.old) (string_bytes log.new) }
{
    let al = AlLine {
        al: cabinet.al(),
        silence: cabinet.silence(),
    };
    writeln!(log, "{al}")?;
    for number in 0..cabinet.axis_count() {
        write_axis(cabinet, number, log)?;
    }
    Ok(())
}

// Adds to the log the drives of the bank that have no axis.
pub fn write_spare_drives<B: Bank>(cabinet: &Cabinet<B>, log: &mut String) -> Result<(), AllocError>
    ensures { Adds result (spare_text (B.meanings cabinet.now.bank)) (string_bytes log.old) (string_bytes log.new) }
{
    for number in cabinet.axis_count()..cabinet.drive_count() {
        let drive = ShownDrive {
            number: usize::from(number),
            held: cabinet.held(number),
        };
        writeln!(log, "  {drive}")?;
    }
    Ok(())
}
