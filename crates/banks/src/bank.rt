// The trait of banks.
ghost use Rattle.std.specs.Prelude.{◌≡◌, ◌≤◌, List, map, length};
ghost use Rattle.drives.specs.Meaning.{DriveMeaning, energised, de_energised, held_still, sampled, taken, take_answer, known_by, admitted_by, refused_by, reading_of};
ghost use Rattle.banks.specs.Lists.{most, drive_at, changed, AllLawful};

use drives::drive::RECORD_LENGTH;
use drives::held::Held;
use drives::target::{Refusal, Target};

// A bank: a list of at most 255 drives, each operated by its number, from 0. An operation on one drive leaves the
// others. A number beyond the bank alters nothing, and stands for a drive that is off and knows nothing.
pub trait Bank {
    ghost meanings: { Self → List DriveMeaning };

    // How many drives the bank has.
    fn count(&self) -> u8
        ensures { result ≡ length (meanings self.now) };

    fn energise_at(&mut self, number: u8)
        ensures { meanings self.new ≡ changed energised (meanings self.old) number };

    fn de_energise_at(&mut self, number: u8)
        ensures { meanings self.new ≡ changed de_energised (meanings self.old) number };

    fn hold_at(&mut self, number: u8)
        ensures { meanings self.new ≡ changed held_still (meanings self.old) number };

    fn sample_at(&mut self, number: u8, record: &[u8; RECORD_LENGTH])
        ensures { meanings self.new ≡ changed (sampled «record».now) (meanings self.old) number };

    fn take_at(&mut self, number: u8, target: Target) -> Result<(), Refusal>
        ensures carries { meanings self.new ≡ changed (taken target) (meanings self.old) number }
        ensures answers { result ≡ take_answer target (drive_at (meanings self.old) number) };

    fn held_at(&self, number: u8) -> Held
        ensures { result ≡ (drive_at (meanings self.now) number).held };

    fn knows_at(&self, number: u8, mode: i8) -> bool
        ensures { result ≡ known_by mode (drive_at (meanings self.now) number) };

    fn admits_at(&self, number: u8, target: Target) -> bool
        ensures { result ≡ admitted_by target (drive_at (meanings self.now) number) };

    fn refusal_at(&self, number: u8, target: Target) -> Option<Refusal>
        ensures { result ≡ refused_by target (drive_at (meanings self.now) number) };

    fn reading_at(&self, number: u8, record: &[u8; RECORD_LENGTH]) -> (u16, i32, i32)
        ensures { result ≡ reading_of «record».now (drive_at (meanings self.now) number) };

    ghost lawful: { (b : Self) → AllLawful (meanings b) };

    ghost few: { (b : Self) → length (meanings b) ≤ most };
}

// De-energises every drive of the bank.
pub fn de_energise_all<B: Bank>(bank: &mut B)
    ensures { B.meanings bank.new ≡ map de_energised (B.meanings bank.old) }
{
    let count = bank.count();
    for number in 0..count {
        bank.de_energise_at(number);
    }
}
