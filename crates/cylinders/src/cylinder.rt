// The oil cylinder.
ghost use Rattle.std.specs.Prelude.{refl};
ghost use Rattle.cylinders.specs.Cylinders.{cylinder_make};
ghost use Rattle.cylinders.specs.CylinderLaws.{cylinder_lawful};

use crate::scale::{GREATEST_CURRENT, LEAST_CURRENT, Scale};
use drives::drive::{NO_MODE, POSITION_MODE, RECORD_LENGTH};
use drives::held::Held;
use drives::made::{DriveMake, MadeDrive};
use drives::target::Target;

// The trouble of a sensor whose current is out of its range.
const SENSOR_TROUBLE: u16 = 0x7300;

// The make of a cylinder is the scale of its position sensor.
pub type Cylinder = MadeDrive<Scale>;

impl DriveMake for Scale {
    ghost make = { λ s. cylinder_make s.k };

    ghost lawful = { λ s. cylinder_lawful s.k };

    ghost stands_alone = { λ s. refl };

    fn knows(&self, mode: i8) -> bool {
        matches!(mode, NO_MODE | POSITION_MODE)
    }

    fn admits(&self, _position: i32, target: Target) -> bool {
        target.mode == POSITION_MODE && (0..=self.highest()).contains(&target.value)
    }

    fn reading(&self, _held: Held, record: &[u8; RECORD_LENGTH]) -> (u16, i32, i32) {
        let [low, high, ..] = *record;
        let current = u16::from_le_bytes([low, high]);
        let trouble = if (LEAST_CURRENT..=GREATEST_CURRENT).contains(&current) {
            0
        } else {
            SENSOR_TROUBLE
        };
        (trouble, self.position(current), 0)
    }
}
