// Windows: limits around any drive.
ghost use Rattle.std.specs.Prelude.{◌≡◌};
ghost use Rattle.drives.specs.Refusals.{deepened};
ghost use Rattle.windows.specs.Windows.{keeps_out, refusal_above};
ghost use Rattle.windows.specs.WindowLaws.{limits_refuse_exactly, limits_refuse_alone, limits_pass_on};

use crate::guard::{Guard, Guarded};
use drives::drive::{Drive, POSITION_MODE, VELOCITY_MODE};
use drives::target::{Cause, Refusal, Target};

// What a window answers to a target that it keeps out.
const KEPT_OUT: Refusal = Refusal {
    cause: Cause::Window,
    depth: 0,
};

// A low and a high position. Low above high is left as it is, and keeps every position out.
#[derive(Clone, Copy, Debug, PartialEq, Eq)]
pub struct Limits {
    pub low: i32,
    pub high: i32,
}

impl Guard for Limits {
    ghost keeps_out = { keeps_out };

    ghost above = { refusal_above };

    ghost deepens = { λ limits. deepened };

    ghost refuses_exactly = { limits_refuse_exactly };

    ghost refuses_alone = { limits_refuse_alone };

    ghost passes_on = { limits_pass_on };

    fn keep_out(&self, position: i32, target: Target) -> bool {
        match target.mode {
            // Two comparisons, like those of the other mode: `!(low..=high).contains(..)` is no plainer.
            POSITION_MODE => target.value < self.low || self.high < target.value,
            VELOCITY_MODE => {
                (0 < target.value && self.high <= position)
                    || (target.value < 0 && position <= self.low)
            }
            _ => false,
        }
    }

    fn refusal_above(
        &self,
        position: i32,
        target: Target,
        below: Option<Refusal>,
    ) -> Option<Refusal> {
        if self.keep_out(position, target) {
            return Some(KEPT_OUT);
        }
        below.map(Refusal::deepened)
    }

    fn deepened(&self, refusal: Refusal) -> Refusal {
        refusal.deepened()
    }
}

// A window: limits over any drive, and itself a drive.
pub type Window<D> = Guarded<Limits, D>;

impl<D: Drive> Window<D> {
    pub fn new(low: i32, high: i32, below: D) -> Window<D>
        ensures { result ≡ record { guard = record { low = low; high = high }; below = below } }
    {
        Guarded::over(Limits { low, high }, below)
    }
}
