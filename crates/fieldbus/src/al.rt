// The AL state machine of ETG.1000.6, without bootstrap.
ghost use Rattle.std.specs.Prelude.{◌≡◌};
ghost use Rattle.fieldbus.specs.AlStates.{al_state_number, al_error_number, al_start, al_status, al_code, al_state_of_number, wanted_state, way_to, granted, acknowledges, requested, broken_off};

// The AL states, lowest first. The numbers are those of AL control and AL status.
#[derive(Clone, Copy, Debug, PartialEq, Eq, PartialOrd, Ord)]
pub enum AlState {
    Init = 1,
    PreOp = 2,
    SafeOp = 4,
    Op = 8,
}

impl From<AlState> for u16 {
    ghost from_gives = { λ state number. number ≡ al_state_number state };

    fn from(state: AlState) -> u16 {
        state as u16
    }
}

impl TryFrom<u16> for AlState {
    type Error = AlError;

    ghost try_from_gives = { λ number state. state ≡ al_state_of_number number };

    fn try_from(number: u16) -> Result<AlState, AlError> {
        match number {
            1 => Ok(AlState::Init),
            2 => Ok(AlState::PreOp),
            3 => Err(AlError::BootstrapNotSupported),
            4 => Ok(AlState::SafeOp),
            8 => Ok(AlState::Op),
            _ => Err(AlError::UnknownState),
        }
    }
}

// Why the error flag is set. The numbers are AL status codes.
#[derive(Clone, Copy, Debug, PartialEq, Eq)]
pub enum AlError {
    InvalidStateChange = 0x0011,
    UnknownState = 0x0012,
    BootstrapNotSupported = 0x0013,
    SyncManagerWatchdog = 0x001b,
    InvalidOutputConfiguration = 0x001d,
    InvalidInputConfiguration = 0x001e,
}

impl From<AlError> for u16 {
    ghost from_gives = { λ error number. number ≡ al_error_number error };

    fn from(error: AlError) -> u16 {
        error as u16
    }
}

// How many bytes of process data a side counts on: outputs are a frame, inputs a return image.
#[derive(Clone, Copy, Debug, PartialEq, Eq)]
pub struct Lengths {
    pub output: usize,
    pub input: usize,
}

// Bit 4 of a control word acknowledges an error.
fn acknowledges(control: u16) -> bool
    ensures { result ≡ acknowledges control }
{
    control & 0x10 != 0
}

// AL: the state, and the error while the flag is set.
#[derive(Clone, Copy, Debug, PartialEq, Eq)]
pub struct Al {
    pub state: AlState,
    pub error: Option<AlError>,
}

impl Al {
    // Init, without an error.
    pub fn start() -> Al
        ensures { result ≡ al_start }
    {
        Al {
            state: AlState::Init,
            error: None,
        }
    }

    // AL status: the state's number, and 16 with the error flag.
    pub fn status(self) -> u16
        ensures { result ≡ al_status self }
    {
        u16::from(self.state) + self.error.map_or(0, |_| 16)
    }

    // The AL status code, 0 without an error.
    pub fn code(self) -> u16
        ensures { result ≡ al_code self }
    {
        self.error.map_or(0, u16::from)
    }

    // Whether a state may be entered from the present one. Only the way from PreOp to SafeOp looks at the lengths.
    fn way_to(self, wanted: AlState, offered: Lengths, needed: Lengths) -> Result<AlState, AlError>
        ensures { result ≡ way_to self.state wanted offered needed }
    {
        match (self.state, wanted) {
            (present, wanted) if wanted <= present => Ok(wanted),
            (AlState::Init, AlState::PreOp) | (AlState::SafeOp, AlState::Op) => Ok(wanted),
            (AlState::PreOp, AlState::SafeOp) => {
                if offered.output != needed.output {
                    Err(AlError::InvalidOutputConfiguration)
                } else if offered.input != needed.input {
                    Err(AlError::InvalidInputConfiguration)
                } else {
                    Ok(wanted)
                }
            }
            _ => Err(AlError::InvalidStateChange),
        }
    }

    // What a control word is granted: the state that its bits 0-3 want, where there is a way to it.
    fn grant(self, control: u16, offered: Lengths, needed: Lengths) -> Result<AlState, AlError>
        ensures { result ≡ granted self offered needed (wanted_state control) }
    {
        let wanted = AlState::try_from(control % 16)?;
        self.way_to(wanted, offered, needed)
    }

    // An AL request with its control word, the lengths that the master offers and those that are needed here.
    // An error has to be acknowledged before anything else is looked at.
    pub fn request(&mut self, control: u16, offered: Lengths, needed: Lengths)
        ensures { self.new ≡ requested control offered needed self.old }
    {
        if self.error.is_some() && !acknowledges(control) {
            return;
        }
        match self.grant(control, offered, needed) {
            Ok(state) => {
                self.state = state;
                self.error = None;
            }
            Err(error) => self.error = Some(error),
        }
    }

    // The watch has run out: SafeOp with the error flag.
    pub fn break_off(&mut self)
        ensures { self.new ≡ broken_off }
    {
        self.state = AlState::SafeOp;
        self.error = Some(AlError::SyncManagerWatchdog);
    }
}
