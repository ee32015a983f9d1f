// What a drive holds, and what the operations make of it.
ghost use Rattle.std.specs.Prelude.{◌≡◌};
ghost use Rattle.drives.specs.Holdings.{at_rest, energised_held, de_energised_held, holding, read_held, own_refusal, taken_held, answered};

use crate::target::{Cause, Refusal, Target};

// What a drive holds: power, the carried target, the trouble code (0 for none), position and velocity. The code stays a
// number: a record brings it as one, and an axis shows it as one.
#[derive(Clone, Copy, Debug, PartialEq, Eq, Default)]
pub struct Held {
    pub powered: bool,
    pub carried: Option<Target>,
    pub trouble: u16,
    pub position: i32,
    pub velocity: i32,
}

impl Held {
    // A drive as it starts: off, carrying nothing, zeros.
    pub fn at_rest() -> Held
        ensures { result ≡ at_rest }
    {
        Held::default()
    }

    // Two operations with names of their own, and not one with a flag: no drive is switched by a value.
    pub fn energise(&mut self)
        ensures { self.new ≡ energised_held self.old }
    {
        self.powered = true;
        self.hold();
    }

    pub fn de_energise(&mut self)
        ensures { self.new ≡ de_energised_held self.old }
    {
        self.powered = false;
        self.hold();
    }

    pub fn hold(&mut self)
        ensures { self.new ≡ holding self.old }
    {
        self.carried = None;
    }

    // Sets trouble, position and velocity together.
    pub fn read(&mut self, reading: (u16, i32, i32))
        ensures { self.new ≡ read_held reading self.old }
    {
        let (trouble, position, velocity) = reading;
        self.trouble = trouble;
        self.position = position;
        self.velocity = velocity;
    }

    // The refusal of the drive itself: power, trouble, mode, limits, in this order.
    pub fn own_refusal(&self, known: bool, admitted: bool) -> Option<Refusal>
        ensures { result ≡ own_refusal self.now known admitted }
    {
        let cause = if !self.powered {
            Cause::NoPower
        } else if self.trouble != 0 {
            Cause::Trouble
        } else if !known {
            Cause::UnknownMode
        } else if !admitted {
            Cause::OwnLimits
        } else {
            return None;
        };
        Some(Refusal { cause, depth: 0 })
    }

    // Carries the target, unless there is a refusal, which alters nothing.
    pub fn take(&mut self, target: Target, refusal: Option<Refusal>) -> Result<(), Refusal>
        ensures carries { self.new ≡ taken_held target refusal self.old }
        ensures answers { result ≡ answered refusal }
    {
        // Each arm does something of its own: no method of `Option` says both.
        match refusal {
            Some(refusal) => Err(refusal),
            None => {
                self.carried = Some(target);
                Ok(())
            }
        }
    }
}
