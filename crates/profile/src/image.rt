// An axis's row of the return image.
ghost use Rattle.std.specs.Prelude.{◌≡◌};
ghost use Rattle.profile.specs.Status.{row_bytes};

// The bytes of a row.
pub const ROW_LENGTH: usize = 13;

// What the return image tells of an axis.
#[derive(Clone, Copy, Debug, PartialEq, Eq)]
pub struct Inputs {
    pub statusword: u16,
    pub position: i32,
    pub velocity: i32,
    pub displayed: i8,
    pub error: u16,
}

impl Inputs {
    // Statusword, position, velocity, displayed mode and error, in this order, lowest byte first. By name: a `From` would
    // not say what the bytes are.
    #[tactic(auto, unfolding(crate::specs::Status::row_bytes))]
    pub fn row(self) -> [u8; ROW_LENGTH]
        ensures { result ≡ row_bytes self }
    {
        let [s0, s1] = self.statusword.to_le_bytes();
        let [p0, p1, p2, p3] = self.position.to_le_bytes();
        let [v0, v1, v2, v3] = self.velocity.to_le_bytes();
        let mode = self.displayed.cast_unsigned();
        let [e0, e1] = self.error.to_le_bytes();
        [s0, s1, p0, p1, p2, p3, v0, v1, v2, v3, mode, e0, e1]
    }
}
