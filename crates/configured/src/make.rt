// A make that is chosen at run time.
ghost use Rattle.std.specs.Prelude.{refl};
ghost use Rattle.configured.specs.Makes.{chosen_make};
ghost use Rattle.hoists.specs.HoistLaws.{hoist_lawful};
ghost use Rattle.cylinders.specs.CylinderLaws.{cylinder_lawful};
ghost use Rattle.configured.specs.declared.make.AnyMake.TheVariants.{Hoist, Cylinder};

use cylinders::scale::Scale;
use drives::drive::RECORD_LENGTH;
use drives::held::Held;
use drives::made::DriveMake;
use drives::target::Target;
use hoists::hoist::HoistMake;

#[derive(Clone, Copy, Debug, PartialEq, Eq)]
pub enum AnyMake {
    Hoist(HoistMake),
    Cylinder(Scale),
}

impl DriveMake for AnyMake {
    ghost make = { chosen_make };

    ghost lawful = { elim [ Hoist make ↦ hoist_lawful _ _ _ | Cylinder scale ↦ cylinder_lawful _ ] };

    ghost stands_alone = { elim [ Hoist make ↦ refl | Cylinder scale ↦ refl ] };

    fn knows(&self, mode: i8) -> bool {
        match self {
            AnyMake::Hoist(make) => make.knows(mode),
            AnyMake::Cylinder(scale) => scale.knows(mode),
        }
    }

    fn admits(&self, position: i32, target: Target) -> bool {
        match self {
            AnyMake::Hoist(make) => make.admits(position, target),
            AnyMake::Cylinder(scale) => scale.admits(position, target),
        }
    }

    fn reading(&self, held: Held, record: &[u8; RECORD_LENGTH]) -> (u16, i32, i32) {
        match self {
            AnyMake::Hoist(make) => make.reading(held, record),
            AnyMake::Cylinder(scale) => scale.reading(held, record),
        }
    }
}
