// The layouts of an axis's part of a frame.
ghost use Rattle.std.specs.Prelude.{◌≡◌};
ghost use Rattle.fieldbus.specs.Frames.{part_length};

// What an axis's part of a frame consists of, in its order. Every part begins with the controlword.
#[derive(Clone, Copy, Debug, PartialEq, Eq)]
pub enum Layout {
    // target position, target velocity and mode
    Full = 0,
    // target position
    Position = 1,
    // target velocity
    Velocity = 2,
}

impl Layout {
    // The bytes of a part.
    pub fn length(self) -> usize
        ensures { result ≡ part_length self }
    {
        match self {
            Layout::Full => 11,
            Layout::Position | Layout::Velocity => 6,
        }
    }
}
