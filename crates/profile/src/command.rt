// The commands of a controlword.
ghost use Rattle.std.specs.Prelude.{◌≡◌};
ghost use Rattle.profile.specs.Commands.{command_number, command_of, reset_bit};

// A command, numbered in the order of the table of moves.
#[derive(Clone, Copy, Debug, PartialEq, Eq)]
pub enum Command {
    Shutdown = 0,
    SwitchOn = 1,
    EnableOperation = 2,
    QuickStop = 3,
    DisableVoltage = 4,
}

impl From<Command> for u8 {
    ghost from_gives = { λ command number. number ≡ command_number command };

    fn from(command: Command) -> u8 {
        command as u8
    }
}

impl Command {
    // The command in bits 0-3 of a controlword. The other bits do not matter, so this is no conversion.
    #[tactic(auto, unfolding(crate::specs::Commands::command_of))]
    pub fn of(controlword: u16) -> Command
        ensures { result ≡ command_of controlword }
    {
        match controlword & 0b1111 {
            low if low & 0b0010 == 0 => Command::DisableVoltage,
            low if low & 0b0100 == 0 => Command::QuickStop,
            low if low & 0b0001 == 0 => Command::Shutdown,
            low if low & 0b1000 == 0 => Command::SwitchOn,
            _ => Command::EnableOperation,
        }
    }
}

// Bit 7 of a controlword, which resets a fault where it rises. A controlword holds more, so this is no conversion.
#[tactic(auto, unfolding(crate::specs::Commands::reset_bit))]
pub fn reset_bit(controlword: u16) -> bool
    ensures { result ≡ reset_bit controlword }
{
    controlword & 0x80 != 0
}
