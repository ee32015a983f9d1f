// A drive that is of a make and stands alone.
ghost use Rattle.std.specs.Prelude.{◌≡◌};
ghost use Rattle.drives.specs.Holdings.{at_rest};
ghost use Rattle.drives.specs.Meaning.{Make, Lawful, own_make};

use crate::drive::{Drive, RECORD_LENGTH};
use crate::held::Held;
use crate::target::{Refusal, Target};

// A make: what the maker's numbers say, which never change. What a drive of the make holds is no part of it, and is
// handed in where an answer may depend on it; no make of today looks at it.
pub trait DriveMake {
    ghost make: { Self → Make };

    fn knows(&self, mode: i8) -> bool
        ensures { result ≡ (make self.now).knows mode };

    // Whether the target is within the limits at a held position.
    fn admits(&self, position: i32, target: Target) -> bool
        ensures { result ≡ (make self.now).admits position target };

    // What a field record reads as for a drive that holds this: trouble code, position and velocity.
    fn reading(&self, held: Held, record: &[u8; RECORD_LENGTH]) -> (u16, i32, i32)
        ensures { result ≡ (make self.now).reads held «record».now };

    ghost lawful: { (m : Self) → Lawful (make m) };

    // It refuses for its own reasons: no window stands above it.
    ghost stands_alone: { (m : Self) → make m ≡ own_make (make m).knows (make m).admits (make m).reads };
}

// A drive of a make, without a window: the make, and what the drive holds.
#[derive(Drop)]
pub struct MadeDrive<M> {
    make: M,
    held: Held,
}

impl<M: DriveMake> MadeDrive<M> {
    // A drive as it starts: at rest.
    pub fn new(make: M) -> MadeDrive<M>
        ensures { result ≡ record { make = make; held = at_rest } }
    {
        MadeDrive {
            make,
            held: Held::at_rest(),
        }
    }
}

impl<M: DriveMake> Drive for MadeDrive<M> {
    ghost meaning = { λ d. record { held = d.held; make = M.make d.make } };

    ghost lawful = { λ d. M.lawful d.make };

    fn energise(&mut self) {
        self.held.energise();
    }

    fn de_energise(&mut self) {
        self.held.de_energise();
    }

    fn hold(&mut self) {
        self.held.hold();
    }

    fn sample(&mut self, record: &[u8; RECORD_LENGTH]) {
        let reading = self.reading(record);
        self.held.read(reading);
    }

    fn take(&mut self, target: Target) -> Result<(), Refusal> {
        let refusal = self.refusal(target);
        self.held.take(target, refusal)
    }

    fn held(&self) -> Held {
        self.held
    }

    fn knows(&self, mode: i8) -> bool {
        self.make.knows(mode)
    }

    fn admits(&self, target: Target) -> bool {
        self.make.admits(self.held.position, target)
    }

    fn refusal(&self, target: Target) -> Option<Refusal> {
        let known = self.knows(target.mode);
        let admitted = self.admits(target);
        self.held.own_refusal(known, admitted)
    }

    fn reading(&self, record: &[u8; RECORD_LENGTH]) -> (u16, i32, i32) {
        self.make.reading(self.held, record)
    }
}
