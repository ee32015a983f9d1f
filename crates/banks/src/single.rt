// One drive is a bank of one.
ghost use Rattle.std.specs.Prelude.{[], ◌∷◌};
ghost use Rattle.std.proofs.Common.{rules};

use crate::bank::Bank;
use drives::drive::{Drive, RECORD_LENGTH};
use drives::held::Held;
use drives::target::{Cause, Refusal, Target};

// What a number beyond the bank answers to a take.
pub const NO_DRIVE: Refusal = Refusal {
    cause: Cause::NoPower,
    depth: 0,
};

// Each method tests the number by itself, and so says what a number beyond the bank stands for.
impl<D: Drive> Bank for D {
    ghost meanings = { λ d. D.Drive.meaning d ∷ [] };

    ghost lawful = { λ d. (D.Drive.lawful d, tt) };

    ghost few = { Prim.search rules };

    fn count(&self) -> u8 {
        1
    }

    fn energise_at(&mut self, number: u8) {
        if number == 0 {
            self.energise();
        }
    }

    fn de_energise_at(&mut self, number: u8) {
        if number == 0 {
            self.de_energise();
        }
    }

    fn hold_at(&mut self, number: u8) {
        if number == 0 {
            self.hold();
        }
    }

    fn sample_at(&mut self, number: u8, record: &[u8; RECORD_LENGTH]) {
        if number == 0 {
            self.sample(record);
        }
    }

    fn take_at(&mut self, number: u8, target: Target) -> Result<(), Refusal> {
        if number == 0 {
            self.take(target)
        } else {
            Err(NO_DRIVE)
        }
    }

    fn held_at(&self, number: u8) -> Held {
        if number == 0 {
            self.held()
        } else {
            Held::at_rest()
        }
    }

    fn knows_at(&self, number: u8, mode: i8) -> bool {
        number == 0 && self.knows(mode)
    }

    fn admits_at(&self, number: u8, target: Target) -> bool {
        number == 0 && self.admits(target)
    }

    fn refusal_at(&self, number: u8, target: Target) -> Option<Refusal> {
        if number == 0 {
            self.refusal(target)
        } else {
            Some(NO_DRIVE)
        }
    }

    fn reading_at(&self, number: u8, record: &[u8; RECORD_LENGTH]) -> (u16, i32, i32) {
        if number == 0 {
            self.reading(record)
        } else {
            (0, 0, 0)
        }
    }
}
