// The scale of a cylinder's position sensor.
ghost use Rattle.std.specs.Prelude.{◌≡◌, ◌*◌, ◌≤◌, pos};
ghost use Rattle.cylinders.specs.Cylinders.{scale_in_range, current_position};

// The sensor's range in microamperes, and the current that stands for position 0.
pub const LEAST_CURRENT: u16 = 3_600;

pub const GREATEST_CURRENT: u16 = 21_000;

pub const ZERO_CURRENT: u16 = 4_000;

// The current from position 0 to the highest position.
const SPAN: u32 = 16_000;

// Micrometres for a microampere: 1 to 1,000.
#[derive(Clone, Copy, Debug, PartialEq, Eq)]
pub struct Scale {
    k: u32,
    ghost in_range: { (1 ≤ k) × (k ≤ 1000) },
}

impl Scale {
    // The k that is given is brought into its range.
    pub fn new(given: u32) -> Scale
        ensures { result.k ≡ scale_in_range given }
    {
        Scale {
            k: given.clamp(1, 1_000),
        }
    }

    pub fn k(&self) -> u32
        ensures { result ≡ self.now.k }
    {
        self.k
    }

    // The highest position.
    pub fn highest(&self) -> i32
        ensures { result ≡ pos (16000 * self.now.k) }
    {
        (SPAN * self.k) as i32
    }

    // The position that a current stands for, the current first brought into its range.
    pub fn position(&self, current: u16) -> i32
        ensures { result ≡ current_position self.now.k current }
    {
        let current = current.clamp(LEAST_CURRENT, GREATEST_CURRENT);
        (i32::from(current) - i32::from(ZERO_CURRENT)) * self.k as i32
    }
}
