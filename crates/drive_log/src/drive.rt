// A drive, and the target that it carries.
ghost use Rattle.std.specs.Prelude.{Some};
ghost use Rattle.drive_log.specs.DriveTexts.{drive_text, held_text, target_text};

use crate::word::ShownWord;
use drives::held::Held;
use drives::target::Target;
use std::fmt;

// A carried target: MODE:VALUE, or none.
#[derive(Clone, Copy)]
pub struct ShownTarget(pub Option<Target>);

impl fmt::Display for ShownTarget {
    ghost output = { λ t. Some (target_text t.0) };

    fn fmt<W: fmt::Write>(&self, f: &mut fmt::Formatter<W>) -> fmt::Result {
        match self.0 {
            Some(target) => {
                let mode = target.mode;
                let value = target.value;
                write!(f, "{mode}:{value}")
            }
            None => write!(f, "none"),
        }
    }
}

// What a drive holds besides its power.
#[derive(Clone, Copy)]
pub struct ShownHeld(pub Held);

impl fmt::Display for ShownHeld {
    ghost output = { λ h. Some (held_text h.0) };

    fn fmt<W: fmt::Write>(&self, f: &mut fmt::Formatter<W>) -> fmt::Result {
        let trouble = ShownWord(self.0.trouble);
        let position = self.0.position;
        let velocity = self.0.velocity;
        let target = ShownTarget(self.0.carried);
        write!(
            f,
            "trouble={trouble} position={position} velocity={velocity} target={target}"
        )
    }
}

// A drive, by its number.
#[derive(Clone, Copy)]
pub struct ShownDrive {
    pub number: usize,
    pub held: Held,
}

impl fmt::Display for ShownDrive {
    ghost output = { λ d. Some (drive_text d.number d.held) };

    fn fmt<W: fmt::Write>(&self, f: &mut fmt::Formatter<W>) -> fmt::Result {
        let number = self.number;
        let power = if self.held.powered { "on" } else { "off" };
        let held = ShownHeld(self.held);
        write!(f, "drive {number} power={power} {held}")
    }
}
