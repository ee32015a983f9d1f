// What the directives of the bench part make of a bank.
ghost use Rattle.std.specs.Prelude.{◌≡◌, [], string_bytes, MatchResult};
ghost use Rattle.banks.specs.Lists.{drive_at, changed};
ghost use Rattle.text.specs.declared.fault.Fault.TheVariants.{NoMemory};
ghost use Rattle.grammar.specs.declared.wrong.Wrong.TheVariants.{Word};
ghost use Rattle.scenario.specs.Heard.{says};
ghost use Rattle.bench.specs.Operations.{operated, operation_answer};
ghost use Rattle.bench.specs.Benches.{bank_is, name_of, LineShows, LineFollowed};

use crate::log::BenchLine;
use banks::bank::Bank;
use configured::ConfiguredBank;
use drive_log::drive::ShownDrive;
use drives::held::Held;
use drives::target::Refusal;
use grammar::wrong::Wrong;
use lines::numbered::NumberedLine;
use scenario::directive::{Directive, Operation, read_directive};
use std::alloc::Global;
use std::fmt::Write;

// Carries out an operation on the drive of a number. Only a take answers.
fn operate<B: Bank>(bank: &mut B, number: u8, operation: Operation) -> Option<Result<(), Refusal>>
    ensures one_drive_changes { B.meanings bank.new ≡ changed (operated operation) (B.meanings bank.old) number }
    ensures answers { result ≡ operation_answer operation (drive_at (B.meanings bank.old) number) }
{
    match operation {
        Operation::Energise => bank.energise_at(number),
        Operation::DeEnergise => bank.de_energise_at(number),
        Operation::Hold => bank.hold_at(number),
        Operation::Sample(record) => bank.sample_at(number, &record),
        Operation::Take(target) => return Some(bank.take_at(number, target)),
    }
    None
}

// What the drive of a number holds, where the number may be any: past 254 it is beyond every bank.
fn held_by<B: Bank>(bank: &B, number: usize) -> Held
    ensures { result ≡ (drive_at (B.meanings bank.now) number).held }
{
    u8::try_from(number).map_or(Held::at_rest(), |number| bank.held_at(number))
}

// The word that names a directive.
fn name_of(directive: &Directive) -> &'static str
    ensures { result.now ≡ name_of (says directive.now) }
{
    match directive {
        Directive::Drive(_) => "drive",
        Directive::Operate(_, Operation::Energise) => "energise",
        Directive::Operate(_, Operation::DeEnergise) => "deenergise",
        Directive::Operate(_, Operation::Hold) => "hold",
        Directive::Operate(_, Operation::Sample(_)) => "sample",
        Directive::Operate(_, Operation::Take(_)) => "take",
    }
}

// The drives on the bench.
#[derive(Drop)]
pub struct Bench {
    bank: ConfiguredBank,
}

impl Bench {
    // A bench without drives.
    pub fn new(heap: Global) -> Bench
        ensures { bank_is result.bank ≡ [] }
    {
        Bench {
            bank: ConfiguredBank::new(heap),
        }
    }

    // The drives, to be built in.
    pub fn into_bank(self) -> ConfiguredBank
        ensures { result ≡ self.bank }
    {
        self.bank
    }

    // Carries out a directive that stands on a line of the scenario, and gives the log's line for it.
    // Where memory is wanting nothing changes.
    fn carry_out(&mut self, line: u64, directive: Directive) -> Result<BenchLine, Wrong>
        ensures { MatchResult result (LineShows line (says directive) self.old.bank self.new.bank) (λ wrong. (wrong ≡ Word NoMemory) × (bank_is self.new.bank ≡ bank_is self.old.bank)) }
    {
        let name = name_of(&directive);
        let (number, answer) = match directive {
            Directive::Drive(drive) => {
                let number = self.bank.len();
                self.bank.push(drive)?;
                (number, None)
            }
            Directive::Operate(number, operation) => (
                usize::from(number),
                operate(&mut self.bank, number, operation),
            ),
        };
        let held = held_by(&self.bank, number);
        Ok(BenchLine {
            line,
            directive: name,
            answer,
            drive: ShownDrive { number, held },
        })
    }

    // Follows a line of the scenario, and adds what it shows to the log. A wrong line does nothing and shows nothing.
    pub fn follow(
        &mut self,
        heap: Global,
        line: NumberedLine<'_>,
        log: &mut String,
    ) -> Result<(), Wrong>
        ensures { LineFollowed line.entry.number line.entry.text.now self.old.bank self.new.bank (string_bytes log.old) (string_bytes log.new) result }
    {
        let Some(directive) = read_directive(heap, line.text)? else {
            return Ok(());
        };
        let shown = self.carry_out(line.number, directive)?;
        writeln!(log, "{shown}")?;
        Ok(())
    }
}
