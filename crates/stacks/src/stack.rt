// Any number of windows over a drive.
ghost use Rattle.std.specs.Prelude.{◌≡◌};
ghost use Rattle.drives.specs.Meaning.{DriveMeaning};
ghost use Rattle.stacks.specs.Enclosures.{enclosed, stacked, any_keeps_out, refusal_above_all, deepened_by_all};
ghost use Rattle.stacks.specs.Enclosed.{windows_refuse_exactly, windows_refuse_alone, windows_pass_on};

use drives::target::{Refusal, Target};
use windows::guard::{Guard, Guarded};
use windows::window::Limits;

// Any number of windows as one guard, the innermost first.
#[derive(Drop)]
pub struct Enclosure {
    windows: Vec<Limits>,
}

impl Enclosure {
    // The limits stand from the innermost window to the outermost. Over any drive they mean so many windows one over the
    // other.
    #[tactic(auto, using(crate::specs::Enclosed::stacked_is_enclosed))]
    pub fn new(windows: Vec<Limits>) -> Enclosure
        ensures given { result ≡ record { windows = windows } }
        ensures one_over_the_other { (drive : DriveMeaning) → stacked drive result.windows.items ≡ enclosed drive windows.items }
    {
        Enclosure { windows }
    }
}

impl Guard for Enclosure {
    ghost keeps_out = { λ e. any_keeps_out e.windows.items };

    ghost above = { λ e. refusal_above_all e.windows.items };

    ghost deepens = { λ e. deepened_by_all e.windows.items };

    ghost refuses_exactly = { λ e. windows_refuse_exactly e.windows.items };

    ghost refuses_alone = { λ e. windows_refuse_alone e.windows.items };

    ghost passes_on = { λ e. windows_pass_on e.windows.items };

    fn keep_out(&self, position: i32, target: Target) -> bool {
        self.windows
            .iter()
            .any(|limits| limits.keep_out(position, target))
    }

    fn refusal_above(
        &self,
        position: i32,
        target: Target,
        below: Option<Refusal>,
    ) -> Option<Refusal> {
        self.windows.iter().fold(below, |refusal, limits| {
            limits.refusal_above(position, target, refusal)
        })
    }

    fn deepened(&self, refusal: Refusal) -> Refusal {
        self.windows
            .iter()
            .fold(refusal, |refusal, limits| limits.deepened(refusal))
    }
}

// A drive under any number of windows. It is the drive that so many `Window`s one over the other would make, for
// programs that learn the number at run time.
pub type Stack<D> = Guarded<Enclosure, D>;
