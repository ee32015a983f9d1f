// The cycle.
ghost use Rattle.std.specs.Prelude.{◌≡◌, ◌*◌, ◌<◌, ◌≤◌, Ok, Err, length};
ghost use Rattle.fieldbus.specs.AlStates.{al_status};
ghost use Rattle.cabinet.specs.Cabinets.{standing, axis_count, stepped};
ghost use Rattle.cabinet.specs.Cycles.{answer_number, checked, heard_by, after_hearing, line_read, rest_read, WholeFrame, cycle_brings, after_cycle, row_of, rows_of, image_of, unless_refused};

use crate::cabinet::Cabinet;
use crate::step::AxisEvent;
use axes::axis::Line;
use banks::bank::Bank;
use drives::drive::RECORD_LENGTH;
use fieldbus::al::AlState;
use fieldbus::frame::FrameReader;
use fieldbus::layout::Layout;
use profile::image::ROW_LENGTH;

// Why a cycle is refused: which length is wrong. The numbers are those of a cycle's answer.
#[derive(Clone, Copy, Debug, PartialEq, Eq)]
pub enum WrongLength {
    Records = 1,
    Frame = 2,
    Image = 3,
}

impl From<WrongLength> for u8 {
    ghost from_gives = { λ wrong r. r ≡ answer_number (Err wrong) };

    fn from(wrong: WrongLength) -> u8 {
        wrong as u8
    }
}

// The number of a cycle's answer, 0 where the cycle was accepted.
pub fn answer_number(answer: Result<(), WrongLength>) -> u8
    ensures { result ≡ answer_number answer }
{
    answer.err().map_or(0, u8::from)
}

// A cycle's answer, and AL status after it.
#[derive(Clone, Copy, Debug, PartialEq, Eq)]
pub struct Cycled {
    pub answer: Result<(), WrongLength>,
    pub status: u16,
}

// What the line brings the whole cabinet in a cycle. Each axis's Line has its part besides: one enum generic in the part
// would say Acts(()) here. That it brings nothing is a case beside the others, and no absence of one.
#[derive(Clone, Copy)]
pub enum Heard {
    // a frame that is acted on
    Frame,
    // the watch runs out
    RunOut,
    // neither
    Nothing,
}

// What the line brings the next axis, which has this layout.
fn line_for(heard: Heard, reader: &mut FrameReader<'_>, layout: Layout) -> Line
    ensures brings { result ≡ line_read heard layout reader.old.rest.now }
    ensures steps { reader.new.rest.now ≡ rest_read heard layout reader.old.rest.now }
{
    match heard {
        Heard::Frame => reader.part(layout).map_or(Line::Quiet, Line::Acts),
        Heard::RunOut => Line::RunsOut,
        Heard::Nothing => Line::Quiet,
    }
}

impl<B: Bank> Cabinet<B> {
    // Checks the lengths of the records, the frame and the return image, in this order.
    fn checked(&self, records: usize, frame: usize, image: usize) -> Result<(), WrongLength>
        ensures { result ≡ checked records frame image (standing B.meanings self.now) }
    {
        let needed = self.needed_lengths();
        if records != RECORD_LENGTH * usize::from(self.axis_count()) {
            Err(WrongLength::Records)
        } else if frame != 0 && frame != needed.output {
            Err(WrongLength::Frame)
        } else if image != needed.input {
            Err(WrongLength::Image)
        } else {
            Ok(())
        }
    }

    // Hears what the line brings: in Operational a frame ends the silence, and a cycle without one counts.
    fn hear(&mut self, came: bool) -> Heard
        ensures brings { result ≡ heard_by came (standing B.meanings self.old) }
        ensures stands { standing B.meanings self.new ≡ after_hearing came (standing B.meanings self.old) }
    {
        if !self.is_operational() {
            return Heard::Nothing;
        }
        if came {
            self.watch.restart();
            return Heard::Frame;
        }
        if self.watch.count_silence() {
            self.al.break_off();
            return Heard::RunOut;
        }
        Heard::Nothing
    }

    // Every axis steps through its part of the cycle, one after the other. Not `step_each`: each has an event of its own.
    fn cycle_each(&mut self, heard: Heard, frame: &[u8], records: &[u8])
        requires whole_frame { WholeFrame heard frame.now self.old.table.axes (axis_count (B.meanings self.old.bank)) }
        requires all_records { length records.now ≡ 12 * axis_count (B.meanings self.old.bank) }
        ensures { standing B.meanings self.new ≡ stepped (cycle_brings heard frame.now records.now (standing B.meanings self.old)) (standing B.meanings self.old) }
    {
        let (each, _) = records.as_chunks::<RECORD_LENGTH>();
        let mut reader = FrameReader::new(frame);
        for (number, record) in (0..self.axis_count()).zip(each) {
            let layout = self.table.axes[usize::from(number)].layout;
            let line = line_for(heard, &mut reader, layout);
            self.step(number, AxisEvent::Cycles(line, record));
        }
    }

    // The row of an axis in the return image.
    fn row(&self, number: u8) -> [u8; ROW_LENGTH]
        requires { number < 8 }
        ensures { result ≡ row_of (standing B.meanings self.now) number }
    {
        let held = self.bank.held_at(number);
        let operational = self.is_operational();
        self.table.axes[usize::from(number)]
            .inputs(held, operational)
            .row()
    }

    // Writes the rows of the first axes, one after the other. By index, since no proof knows what a loop over chunks_mut
    // has written.
    #[tactic(auto, using(crate::proofs::Rows::rows_none, crate::proofs::Rows::row_written, crate::proofs::Rows::rows_written))]
    fn write_rows(&self, count: u8, image: &mut [u8])
        requires { (count ≤ 8) × (length image.old ≡ 13 * count) }
        ensures { image.new ≡ rows_of (standing B.meanings self.now) count }
    {
        for axis in 0..count {
            let at = ROW_LENGTH * usize::from(axis);
            let row = self.row(axis);
            image[at..at + ROW_LENGTH].copy_from_slice(&row);
        }
    }

    // Writes the return image whole: the rows in SafeOp and Operational, otherwise zeros.
    fn write_image(&self, image: &mut [u8])
        requires { length image.old ≡ 13 * axis_count (B.meanings self.now.bank) }
        ensures { image.new ≡ image_of (standing B.meanings self.now) }
    {
        match self.al.state {
            AlState::SafeOp | AlState::Op => self.write_rows(self.axis_count(), image),
            AlState::Init | AlState::PreOp => image.fill(0),
        }
    }

    // An accepted cycle.
    #[tactic(auto, unfolding(crate::specs::Cycles::after_cycle))]
    fn run(&mut self, frame: &[u8], records: &[u8], image: &mut [u8])
        requires { checked (length records.now) (length frame.now) (length image.old) (standing B.meanings self.old) ≡ Ok tt }
        ensures stands { standing B.meanings self.new ≡ after_cycle frame.now records.now (standing B.meanings self.old) }
        ensures image_written_whole { image.new ≡ image_of (standing B.meanings self.new) }
    {
        let heard = self.hear(!frame.is_empty());
        self.cycle_each(heard, frame, records);
        self.write_image(image);
    }

    // A cycle: a frame, empty where none came, a field record for each axis, and the return image, of which an accepted
    // cycle writes every byte. A refused cycle changes nothing. Three slices and no struct of them: each is the caller's.
    pub fn cycle(&mut self, frame: &[u8], records: &[u8], image: &mut [u8]) -> Cycled
        ensures answers { result.answer ≡ checked (length records.now) (length frame.now) (length image.old) (standing B.meanings self.old) }
        ensures al_status { result.status ≡ al_status self.new.al }
        ensures stands { standing B.meanings self.new ≡ unless_refused result.answer (after_cycle frame.now records.now (standing B.meanings self.old)) (standing B.meanings self.old) }
        ensures image_written_whole { image.new ≡ unless_refused result.answer (image_of (standing B.meanings self.new)) image.old }
    {
        let answer = self.checked(records.len(), frame.len(), image.len());
        if answer.is_ok() {
            self.run(frame, records, image);
        }
        Cycled {
            answer,
            status: self.al.status(),
        }
    }
}
