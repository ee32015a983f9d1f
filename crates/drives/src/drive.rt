// The trait that every drive stands behind.
ghost use Rattle.std.specs.Prelude.{◌≡◌};
ghost use Rattle.drives.specs.Meaning.{DriveMeaning, Lawful, energised, de_energised, held_still, sampled, taken, take_answer, known_by, admitted_by, refused_by, reading_of};

use crate::held::Held;
use crate::target::{Refusal, Target};

// Modes are numbers and no enum, since a target may name any: which of them it knows is each drive's to say.

// Mode 0: no mode is chosen. Every drive knows it, and admits no value in it.
pub const NO_MODE: i8 = 0;

// CiA 402's cyclic synchronous position mode.
pub const POSITION_MODE: i8 = 8;

// CiA 402's cyclic synchronous velocity mode.
pub const VELOCITY_MODE: i8 = 9;

// The bytes of a field record.
pub const RECORD_LENGTH: usize = 12;

// A drive. Each operation changes only what it names, and a question changes nothing.
// Drives are neither `Copy` nor `Clone`: one that is built in cannot be operated by a copy.
pub trait Drive {
    ghost meaning: { Self → DriveMeaning };

    // Power on, carrying nothing.
    fn energise(&mut self)
        ensures { meaning self.new ≡ energised (meaning self.old) };

    // Power off, carrying nothing.
    fn de_energise(&mut self)
        ensures { meaning self.new ≡ de_energised (meaning self.old) };

    // Carrying nothing.
    fn hold(&mut self)
        ensures { meaning self.new ≡ held_still (meaning self.old) };

    // Takes trouble, position and velocity out of a field record.
    fn sample(&mut self, record: &[u8; RECORD_LENGTH])
        ensures { meaning self.new ≡ sampled «record».now (meaning self.old) };

    // Carries the target, or refuses it and alters nothing.
    fn take(&mut self, target: Target) -> Result<(), Refusal>
        ensures carries { meaning self.new ≡ taken target (meaning self.old) }
        ensures answers { result ≡ take_answer target (meaning self.old) };

    // What the drive holds.
    fn held(&self) -> Held
        ensures { result ≡ (meaning self.now).held };

    fn knows(&self, mode: i8) -> bool
        ensures { result ≡ known_by mode (meaning self.now) };

    // Whether the target is within the limits at the position held.
    fn admits(&self, target: Target) -> bool
        ensures { result ≡ admitted_by target (meaning self.now) };

    // Why the target would be refused now; none where it would be taken.
    fn refusal(&self, target: Target) -> Option<Refusal>
        ensures { result ≡ refused_by target (meaning self.now) };

    // What a field record reads as: trouble code, position and velocity.
    fn reading(&self, record: &[u8; RECORD_LENGTH]) -> (u16, i32, i32)
        ensures { result ≡ reading_of «record».now (meaning self.now) };

    ghost lawful: { (d : Self) → Lawful (meaning d).make };
}
