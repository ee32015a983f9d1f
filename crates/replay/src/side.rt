// One cabinet that follows a scenario.
ghost use Rattle.std.specs.Prelude.{◌≡◌, length, IfOk, string_bytes};
ghost use Rattle.calls.specs.Calls.{Requests, Cycles};
ghost use Rattle.calls.specs.Heard.{cycle_asks, call_asks};
ghost use Rattle.cabinet_log.specs.CabinetTexts.{standing_text};
ghost use Rattle.bench.specs.Benches.{bank_is};
ghost use Rattle.replay.specs.Sides.{cabinet_stands, side_stands, delay_of, image_length, BuildShown, SideBuilt, CycleFollowed, AnswerShown, CallShown};

use cabinet::cabinet::Cabinet;
use cabinet::cycle::Cycled;
use cabinet_log::answer::{ShownBuild, ShownCycle, ShownRequest};
use cabinet_log::standing::{write_spare_drives, write_standing};
use call_log::call_lines::{DelayedLines, Lines};
use calls::call::{AlRequest, Call, Cycle};
use configured::ConfiguredBank;
use grammar::wrong::Wrong;
use profile::image::ROW_LENGTH;
use std::alloc::Global;
use std::fmt::Write;

// A cabinet, and the line of the scenario at which its watch first ran out.
#[derive(Drop)]
pub struct Side {
    cabinet: Cabinet<ConfiguredBank>,
    ran_out: Option<u64>,
}

// The lines that show how a cabinet stands.
fn standing_lines(heap: Global, cabinet: &Cabinet<ConfiguredBank>) -> Result<String, Wrong>
    ensures { IfOk result (λ below. string_bytes below ≡ standing_text (cabinet_stands cabinet.now)) }
{
    let mut below = String::new(heap);
    write_standing(cabinet, &mut below)?;
    Ok(below)
}

// The lines that show a cabinet as it was built.
fn built_lines(heap: Global, cabinet: &Cabinet<ConfiguredBank>) -> Result<Lines, Wrong>
    ensures { IfOk result (BuildShown (cabinet_stands cabinet.now)) }
{
    let shown = ShownBuild {
        axes: cabinet.axis_count(),
        delay: cabinet.delay(),
    };
    let answer = format!(in heap; "{shown}")?;
    let mut below = standing_lines(heap, cabinet)?;
    write_spare_drives(cabinet, &mut below)?;
    Ok(Lines { answer, below })
}

impl Side {
    // Builds a cabinet, and gives the lines that show it.
    pub fn build(
        heap: Global,
        bank: ConfiguredBank,
        number: u32,
        delay: u16,
    ) -> Result<(Side, Lines), Wrong>
        ensures { IfOk result (λ both. SideBuilt number delay (bank_is bank) both.0 both.1) }
    {
        let cabinet = Cabinet::new(bank, number, delay);
        let lines = built_lines(heap, &cabinet)?;
        let side = Side {
            cabinet,
            ran_out: None,
        };
        Ok((side, lines))
    }

    pub fn delay(&self) -> u16
        ensures { result ≡ delay_of self.now }
    {
        self.cabinet.delay()
    }

    // Lines of this cabinet, with its delay.
    pub fn delayed<'a>(&self, lines: &'a Lines) -> DelayedLines<'a>
        ensures delay { result.delay ≡ delay_of self.now }
        ensures lines { result.lines.now ≡ lines.now }
    {
        DelayedLines {
            delay: self.delay(),
            lines,
        }
    }

    // The line at which the watch first ran out.
    pub fn ran_out(&self) -> Option<u64>
        ensures { result ≡ self.now.ran_out }
    {
        self.ran_out
    }

    fn request(&mut self, heap: Global, request: AlRequest) -> Result<String, Wrong>
        ensures { IfOk result (λ answer. AnswerShown 0 (Requests request) self.old self.new (string_bytes answer)) }
    {
        let shown = ShownRequest(
            self.cabinet
                .request(request.control, request.output, request.input),
        );
        Ok(format!(in heap; "{shown}")?)
    }

    // The return image is as long as the axes need where no length is given.
    fn image_length(&self, given: Option<u16>) -> usize
        ensures { result ≡ image_length given (side_stands self.now) }
    {
        given.map_or(
            ROW_LENGTH * usize::from(self.cabinet.axis_count()),
            usize::from,
        )
    }

    // Carries out a cycle at a line of the scenario. One that leaves Operational is one in which the watch runs out.
    fn carry_out(&mut self, line: u64, cycle: &Cycle, image: &mut [u8]) -> Cycled
        ensures { CycleFollowed line (cycle_asks cycle.now) (length image.old) image.old image.new result self.old self.new }
    {
        let was_operational = self.cabinet.is_operational();
        let cycled = self
            .cabinet
            .cycle(cycle.frame.as_slice(), cycle.records.as_slice(), image);
        if was_operational && !self.cabinet.is_operational() {
            self.ran_out = self.ran_out.or(Some(line));
        }
        cycled
    }

    fn cycle(&mut self, heap: Global, line: u64, cycle: &Cycle) -> Result<String, Wrong>
        ensures { IfOk result (λ answer. AnswerShown line (Cycles (cycle_asks cycle.now)) self.old self.new (string_bytes answer)) }
    {
        let length = self.image_length(cycle.image);
        let mut image = vec![in heap; 0u8; length]?;
        let cycled = self.carry_out(line, cycle, image.as_mut_slice());
        let shown = ShownCycle {
            cycled,
            image: image.as_slice(),
        };
        Ok(format!(in heap; "{shown}")?)
    }

    // Makes the call that stands on a line of the scenario, and gives the lines that show it.
    pub fn call(&mut self, heap: Global, line: u64, call: &Call) -> Result<Lines, Wrong>
        ensures { IfOk result (CallShown line (call_asks call.now) self.old self.new) }
    {
        let answer = match call {
            Call::Request(request) => self.request(heap, *request)?,
            Call::Cycle(cycle) => self.cycle(heap, line, cycle)?,
        };
        let below = standing_lines(heap, &self.cabinet)?;
        Ok(Lines { answer, below })
    }
}
