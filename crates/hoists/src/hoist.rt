// The chain hoist.
ghost use Rattle.std.specs.Prelude.{◌≡◌, refl};
ghost use Rattle.hoists.specs.Hoists.{hoist_make};
ghost use Rattle.hoists.specs.HoistLaws.{hoist_lawful};

use crate::inverter::inverter_trouble;
use drives::drive::{NO_MODE, POSITION_MODE, RECORD_LENGTH, VELOCITY_MODE};
use drives::held::Held;
use drives::made::{DriveMake, MadeDrive};
use drives::target::Target;

// What a hoist is made with: its lowest and highest position, and its greatest speed either way.
// Lowest above highest is left as it is, and admits no position.
#[derive(Clone, Copy, Debug, PartialEq, Eq)]
pub struct HoistMake {
    lowest: i32,
    highest: i32,
    greatest_speed: u32,
}

// A hoist is known by these numbers.
pub type Hoist = MadeDrive<HoistMake>;

impl HoistMake {
    pub fn new(lowest: i32, highest: i32, greatest_speed: u32) -> HoistMake
        ensures { result ≡ record { lowest = lowest; highest = highest; greatest_speed = greatest_speed } }
    {
        HoistMake {
            lowest,
            highest,
            greatest_speed,
        }
    }
}

impl DriveMake for HoistMake {
    ghost make = { λ m. hoist_make m.lowest m.highest m.greatest_speed };

    ghost lawful = { λ m. hoist_lawful m.lowest m.highest m.greatest_speed };

    ghost stands_alone = { λ m. refl };

    fn knows(&self, mode: i8) -> bool {
        matches!(mode, NO_MODE | POSITION_MODE | VELOCITY_MODE)
    }

    fn admits(&self, _position: i32, target: Target) -> bool {
        match target.mode {
            POSITION_MODE => (self.lowest..=self.highest).contains(&target.value),
            VELOCITY_MODE => target.value.unsigned_abs() <= self.greatest_speed,
            _ => false,
        }
    }

    fn reading(&self, _held: Held, record: &[u8; RECORD_LENGTH]) -> (u16, i32, i32) {
        let [p0, p1, p2, p3, v0, v1, v2, v3, bits0, bits1, ..] = *record;
        let position = i32::from_le_bytes([p0, p1, p2, p3]);
        let velocity = i32::from_le_bytes([v0, v1, v2, v3]);
        let bits = u16::from_le_bytes([bits0, bits1]);
        (inverter_trouble(bits), position, velocity)
    }
}
