// A row of any number of drives of one type.
ghost use Rattle.std.specs.Prelude.{◌≡◌, [], ◌∷◌, ◌++◌, length, is_ok, IfErr, if◌then◌else◌};
ghost use Rattle.rows.specs.Rows.{in_row, with_drive, PlaceIs};
ghost use Rattle.rows.specs.InRow.{row_lawful, row_few};

use banks::bank::Bank;
use banks::single::NO_DRIVE;
use drives::drive::{Drive, RECORD_LENGTH};
use drives::held::Held;
use drives::target::{Refusal, Target};
use std::alloc::{AllocFailed, Global};

// Drives in the order in which they came. The first 255 are the bank; no operation reaches the others. No model: a clause
// that says a row stays says so of its memory too.
#[derive(Drop)]
pub struct Row<D> {
    drives: Vec<D>,
}

impl<D: Drive> Row<D> {
    pub fn new(heap: Global) -> Row<D>
        ensures { result.drives.items ≡ [] }
    {
        Row {
            drives: Vec::new(heap),
        }
    }

    // How many drives stand in the row, those beyond the bank too.
    pub fn len(&self) -> usize
        ensures { result ≡ length self.now.drives.items }
    {
        self.drives.len()
    }

    // One drive more at the end, or the drive back where memory is wanting.
    pub fn push(&mut self, drive: D) -> Result<(), AllocFailed<D>>
        ensures appended { self.new.drives.items ≡ (if is_ok result then self.old.drives.items ++ (drive ∷ []) else self.old.drives.items) }
        ensures joins_the_bank { in_row D.Drive.meaning self.new.drives.items ≡ (if is_ok result then with_drive (in_row D.Drive.meaning self.old.drives.items) (D.Drive.meaning drive) else in_row D.Drive.meaning self.old.drives.items) }
        ensures handed_back { IfErr result (λ back. back.value ≡ drive) }
    {
        self.drives.push(drive)
    }

    // The place in the row of a number of the bank, none beyond it.
    fn place(&self, number: u8) -> Option<usize>
        ensures { PlaceIs D.Drive.meaning self.now.drives.items number result }
    {
        (number < self.count()).then_some(usize::from(number))
    }
}

// Each method is a line over `place`. One that lends the drive by `&mut` would owe a clause on what it ends as, and no
// contract of the ten would be shorter for it.
impl<D: Drive> Bank for Row<D> {
    ghost meanings = { λ b. in_row D.Drive.meaning b.drives.items };

    ghost lawful = { λ b. row_lawful D.Drive.meaning b.drives.items D.Drive.lawful };

    ghost few = { λ b. row_few D.Drive.meaning b.drives.items };

    // 255 at most.
    fn count(&self) -> u8 {
        u8::try_from(self.len()).unwrap_or(u8::MAX)
    }

    fn energise_at(&mut self, number: u8) {
        if let Some(place) = self.place(number) {
            self.drives[place].energise();
        }
    }

    fn de_energise_at(&mut self, number: u8) {
        if let Some(place) = self.place(number) {
            self.drives[place].de_energise();
        }
    }

    fn hold_at(&mut self, number: u8) {
        if let Some(place) = self.place(number) {
            self.drives[place].hold();
        }
    }

    fn sample_at(&mut self, number: u8, record: &[u8; RECORD_LENGTH]) {
        if let Some(place) = self.place(number) {
            self.drives[place].sample(record);
        }
    }

    fn take_at(&mut self, number: u8, target: Target) -> Result<(), Refusal> {
        let place = self.place(number).ok_or(NO_DRIVE)?;
        self.drives[place].take(target)
    }

    fn held_at(&self, number: u8) -> Held {
        self.place(number)
            .map_or(Held::at_rest(), |place| self.drives[place].held())
    }

    fn knows_at(&self, number: u8, mode: i8) -> bool {
        self.place(number)
            .is_some_and(|place| self.drives[place].knows(mode))
    }

    fn admits_at(&self, number: u8, target: Target) -> bool {
        self.place(number)
            .is_some_and(|place| self.drives[place].admits(target))
    }

    fn refusal_at(&self, number: u8, target: Target) -> Option<Refusal> {
        self.place(number).map_or(Some(NO_DRIVE), |place| {
            self.drives[place].refusal(target)
        })
    }

    fn reading_at(&self, number: u8, record: &[u8; RECORD_LENGTH]) -> (u16, i32, i32) {
        self.place(number)
            .map_or((0, 0, 0), |place| self.drives[place].reading(record))
    }
}
