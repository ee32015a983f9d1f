// Two banks side by side are again a bank.
ghost use Rattle.std.specs.Prelude.{◌≡◌};
ghost use Rattle.pairs.specs.Pairs.{side_by_side, FoundAt};
ghost use Rattle.pairs.specs.FoundLemmas.{lawful-side_by_side, few-side_by_side};

use banks::bank::Bank;
use drives::drive::RECORD_LENGTH;
use drives::held::Held;
use drives::target::{Refusal, Target};

// Two banks side by side, so that hoists and cylinders mix. The first one's drives are numbered first.
#[derive(Drop)]
pub struct Pair<A, B> {
    first: A,
    second: B,
}

// Where a number of a pair is found: a number of the first bank or of the second. The library's `Either` would only say
// left and right for it.
#[derive(Clone, Copy)]
pub enum Place {
    First(u8),
    Second(u8),
}

impl<F: Bank, S: Bank> Pair<F, S> {
    pub fn new(first: F, second: S) -> Pair<F, S>
        ensures { result ≡ record { first = first; second = second } }
    {
        Pair { first, second }
    }

    // Number 255 is beyond every bank, and so the first one answers for it.
    fn place(&self, number: u8) -> Place
        ensures { FoundAt (F.Bank.meanings self.now.first) (S.Bank.meanings self.now.second) number result }
    {
        let count = self.first.count();
        if number < count || number == u8::MAX {
            Place::First(number)
        } else {
            Place::Second(number - count)
        }
    }
}

// Hands a call on to the bank in which the number is found. No function lends the drive that is found: the two banks
// have drives of two types, and no `dyn` of a type parameter can be made.
macro_rules! handed_on {
    ($pair:ident, $number:ident, $call:ident($($argument:expr),*)) => {
        match $pair.place($number) {
            Place::First(number) => $pair.first.$call(number $(, $argument)*),
            Place::Second(number) => $pair.second.$call(number $(, $argument)*),
        }
    };
}

impl<F: Bank, S: Bank> Bank for Pair<F, S> {
    ghost meanings = { λ p. side_by_side (F.Bank.meanings p.first) (S.Bank.meanings p.second) };

    ghost lawful = { λ p. lawful-side_by_side _ _ (F.Bank.lawful p.first) (S.Bank.lawful p.second) };

    ghost few = { λ p. few-side_by_side (F.Bank.meanings p.first) (S.Bank.meanings p.second) };

    fn count(&self) -> u8 {
        self.first.count().saturating_add(self.second.count())
    }

    fn energise_at(&mut self, number: u8) {
        handed_on!(self, number, energise_at())
    }

    fn de_energise_at(&mut self, number: u8) {
        handed_on!(self, number, de_energise_at())
    }

    fn hold_at(&mut self, number: u8) {
        handed_on!(self, number, hold_at())
    }

    fn sample_at(&mut self, number: u8, record: &[u8; RECORD_LENGTH]) {
        handed_on!(self, number, sample_at(record))
    }

    fn take_at(&mut self, number: u8, target: Target) -> Result<(), Refusal> {
        handed_on!(self, number, take_at(target))
    }

    fn held_at(&self, number: u8) -> Held {
        handed_on!(self, number, held_at())
    }

    fn knows_at(&self, number: u8, mode: i8) -> bool {
        handed_on!(self, number, knows_at(mode))
    }

    fn admits_at(&self, number: u8, target: Target) -> bool {
        handed_on!(self, number, admits_at(target))
    }

    fn refusal_at(&self, number: u8, target: Target) -> Option<Refusal> {
        handed_on!(self, number, refusal_at(target))
    }

    fn reading_at(&self, number: u8, record: &[u8; RECORD_LENGTH]) -> (u16, i32, i32) {
        handed_on!(self, number, reading_at(record))
    }
}
