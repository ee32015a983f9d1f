// Numbers of 16 bits in hexadecimal.
ghost use Rattle.std.specs.Prelude.{◌≡◌, ◌%◌, [], ◌∷◌, Some};
ghost use Rattle.drive_log.specs.DriveTexts.{hex_digit, word_text};

use std::fmt;

// The hexadecimal digit of the low four bits. Not `{:x}`: a log is mostly such digits, and the library pads each number
// anew.
pub fn hex_digit(n: u16) -> &'static str
    ensures { result.now ≡ hex_digit (n % 16) ∷ [] }
{
    match n % 16 {
        0 => "0",
        1 => "1",
        2 => "2",
        3 => "3",
        4 => "4",
        5 => "5",
        6 => "6",
        7 => "7",
        8 => "8",
        9 => "9",
        10 => "a",
        11 => "b",
        12 => "c",
        13 => "d",
        14 => "e",
        _ => "f",
    }
}

// A 16-bit number: 0x and four digits.
#[derive(Clone, Copy)]
pub struct ShownWord(pub u16);

impl fmt::Display for ShownWord {
    ghost output = { λ w. Some (word_text w.0) };

    fn fmt<W: fmt::Write>(&self, f: &mut fmt::Formatter<W>) -> fmt::Result {
        let a = hex_digit(self.0 / 4096);
        let b = hex_digit(self.0 / 256);
        let c = hex_digit(self.0 / 16);
        let d = hex_digit(self.0);
        write!(f, "0x{a}{b}{c}{d}")
    }
}
