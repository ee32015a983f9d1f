// The AL request.
ghost use Rattle.std.specs.Prelude.{◌≡◌};
ghost use Rattle.cabinet.specs.Cabinets.{standing};
ghost use Rattle.cabinet.specs.Requests.{needed_lengths, passage, passed, after_request, answer_of};

use crate::cabinet::Cabinet;
use crate::step::AxisEvent;
use banks::bank::Bank;
use fieldbus::al::{AlState, Lengths};
use profile::image::ROW_LENGTH;

// What an AL request answers: the two numbers of the standard.
#[derive(Clone, Copy, Debug, PartialEq, Eq)]
pub struct AlAnswer {
    pub status: u16,
    pub code: u16,
}

impl<B: Bank> Cabinet<B> {
    // The lengths that this cabinet needs: a part for each axis, and a row of the return image for each.
    pub(crate) fn needed_lengths(&self) -> Lengths
        ensures { result ≡ needed_lengths (standing B.meanings self.now) }
    {
        let axes = usize::from(self.axis_count());
        Lengths {
            output: self.table.frame_length(axes),
            input: ROW_LENGTH * axes,
        }
    }

    // What a change of AL from a state to the present one does: entering Operational from SafeOp begins a stay, leaving it
    // is a loss of the line.
    fn pass_from(&mut self, before: AlState)
        ensures { standing B.meanings self.new ≡ passed (passage before self.old.al.state) (standing B.meanings self.old) }
    {
        match (before, self.al.state) {
            (AlState::SafeOp, AlState::Op) => {
                self.watch.restart();
                self.step_each(AxisEvent::StayBegins);
            }
            (AlState::Op, AlState::Init | AlState::PreOp | AlState::SafeOp) => {
                self.step_each(AxisEvent::LineLost)
            }
            _ => {}
        }
    }

    // An AL request: a control word, and the lengths of outputs and inputs that the master counts on.
    #[tactic(auto, unfolding(crate::specs::Requests::after_request))]
    pub fn request(&mut self, control: u16, output: u16, input: u16) -> AlAnswer
        ensures stands { standing B.meanings self.new ≡ after_request control output input (standing B.meanings self.old) }
        ensures answers { result ≡ answer_of (after_request control output input (standing B.meanings self.old)) }
    {
        let offered = Lengths {
            output: usize::from(output),
            input: usize::from(input),
        };
        let needed = self.needed_lengths();
        let before = self.al.state;
        self.al.request(control, offered, needed);
        self.pass_from(before);
        AlAnswer {
            status: self.al.status(),
            code: self.al.code(),
        }
    }
}
