// The states of an axis.
ghost use Rattle.std.specs.Prelude.{◌≡◌, get_or};
ghost use Rattle.profile.specs.States.{state_number, state_pattern, patterns, ToldApart};

// A state, numbered in the order of the table of moves.
#[derive(Clone, Copy, Debug, PartialEq, Eq)]
pub enum State {
    NotReady = 0,
    SwitchOnDisabled = 1,
    Ready = 2,
    SwitchedOn = 3,
    OperationEnabled = 4,
    QuickStopActive = 5,
    FaultReactionActive = 6,
    Fault = 7,
}

// The pattern of each state in the statusword, by the state's number.
const PATTERNS: [u16; 8] = [0x00, 0x40, 0x21, 0x23, 0x27, 0x07, 0x0f, 0x08];

impl From<State> for u8 {
    ghost from_gives = { λ state number. number ≡ state_number state };

    fn from(state: State) -> u8 {
        state as u8
    }
}

impl State {
    // The state's pattern in the statusword, by which it is told from every other.
    pub fn pattern(self) -> u16
        ensures value { result ≡ state_pattern self }
        ensures stands_in_the_table { result ≡ get_or patterns (state_number self) 0 }
        ensures told_apart { ToldApart self result }
    {
        PATTERNS[usize::from(u8::from(self))]
    }
}
