// Targets and refusals.
ghost use Rattle.std.specs.Prelude.{◌≡◌};
ghost use Rattle.drives.specs.Refusals.{cause_number, refusal_code, deepened};

// What a drive is asked to carry: a mode of operation and a value in that mode's unit.
#[derive(Clone, Copy, Debug, PartialEq, Eq)]
pub struct Target {
    pub mode: i8,
    pub value: i32,
}

// Why a take is refused. The numbers are part of every answer that shows a refusal.
#[derive(Clone, Copy, Debug, PartialEq, Eq)]
pub enum Cause {
    UnknownMode = 1,
    OwnLimits = 2,
    Window = 3,
    NoPower = 4,
    Trouble = 5,
}

impl From<Cause> for u8 {
    ghost from_gives = { λ c r. r ≡ cause_number c };

    fn from(cause: Cause) -> u8 {
        cause as u8
    }
}

// A refusal: its cause, and how many windows stand above the one who refuses, 255 at most.
#[derive(Clone, Copy, Debug, PartialEq, Eq)]
pub struct Refusal {
    pub cause: Cause,
    pub depth: u8,
}

impl Refusal {
    // The refusal as one number: depth times 256, plus the cause. A name says which number; `From` would not.
    pub fn code(self) -> u16
        ensures { result ≡ refusal_code self }
    {
        u16::from(self.depth) * 256 + u16::from(u8::from(self.cause))
    }

    // The same refusal as it is seen through one more window.
    pub fn deepened(self) -> Refusal
        ensures { result ≡ deepened self }
    {
        Refusal {
            depth: self.depth.saturating_add(1),
            ..self
        }
    }
}
