// A scenario followed line by line. Heap, number and log come one by one: a side takes no log, and the second bench has
// one of its own.
ghost use Rattle.std.specs.Prelude.{◌≡◌, IfOk, string_bytes, MatchResult};
ghost use Rattle.drive_log.specs.Added.{Adds};
ghost use Rattle.calls.specs.Heard.{call_asks};
ghost use Rattle.call_log.specs.CallTexts.{both_text};
ghost use Rattle.replay.specs.Sides.{delay_of};
ghost use Rattle.replay.specs.Stages.{name_of, closing_text, NoWord, OneFollows, TwoFollow, BenchesFollow, Built, LineFollowed, Unwritten, StartsEmpty};

use crate::closing::{write_parting, write_run_out};
use crate::side::Side;
use bench::run::Bench;
use call_log::call_lines::{Heading, Lines, write_both_lines, write_lines};
use calls::call::Call;
use calls::directive::{Build, CabinetDirective, read_cabinet_directive};
use grammar::wrong::Wrong;
use lines::numbered::NumberedLine;
use scenario::directive::read_directive;
use std::alloc::{AllocError, Global};

// The drives on the bench, twice: a cabinet takes its bank along, and a second one needs a bank of its own.
#[derive(Drop)]
struct Benches {
    first: Bench,
    second: Bench,
}

// Two cabinets side by side, and the line at which they first stood differently.
// Not one generic pair with `Benches`: only the names of two fields are alike.
#[derive(Drop)]
struct Pair {
    first: Side,
    second: Side,
    parted: Option<u64>,
}

// How far a scenario has come: the bench part, or the cabinet part with one cabinet or with two.
#[derive(Drop)]
enum Stage {
    Bench(Benches),
    One(Side),
    Two(Pair),
}

// A scenario that is followed line by line.
#[derive(Drop)]
pub struct Replay {
    stage: Stage,
}

// The heading of a call that stands on a line.
fn heading(number: u64, call: &Call) -> Heading<'static>
    ensures line { result.number ≡ number }
    ensures word { result.directive.now ≡ name_of (call_asks call.now) }
{
    let directive = match call {
        Call::Request(_) => "al",
        Call::Cycle(_) => "cycle",
    };
    Heading { number, directive }
}

impl Benches {
    // Follows a line of the bench part. Both benches do the same, and the log shows it once.
    fn follow(
        &mut self,
        heap: Global,
        line: NumberedLine<'_>,
        log: &mut String,
    ) -> Result<(), Wrong>
        ensures { MatchResult result (λ done. BenchesFollow line.entry.number line.entry.text.now self.old self.new (string_bytes log.old) (string_bytes log.new)) (Unwritten (string_bytes log.old) (string_bytes log.new)) }
    {
        self.first.follow(heap, line, log)?;
        let mut unseen = String::new(heap);
        self.second.follow(heap, line, &mut unseen)
    }

    // Builds the cabinet, or two, and shows them.
    fn build(
        self,
        heap: Global,
        number: u64,
        build: Build,
        log: &mut String,
    ) -> Result<Stage, Wrong>
        ensures { MatchResult result (Built number build self (string_bytes log.old) (string_bytes log.new)) (Unwritten (string_bytes log.old) (string_bytes log.new)) }
    {
        let Benches { first, second } = self;
        let (one, lines) = Side::build(heap, first.into_bank(), build.number, build.delay)?;
        let heading = Heading {
            number,
            directive: "cabinet",
        };
        let Some(delay) = build.second else {
            write_lines(heading, &lines, log)?;
            return Ok(Stage::One(one));
        };
        let (other, other_lines) = Side::build(heap, second.into_bank(), build.number, delay)?;
        let pair = Pair {
            first: one,
            second: other,
            parted: None,
        };
        pair.show(heading, &lines, &other_lines, log)?;
        Ok(Stage::Two(pair))
    }
}

// Makes a call to one cabinet and shows it. Not the half of a call to two, which are compared before they are shown.
fn call_one(
    side: &mut Side,
    heap: Global,
    number: u64,
    call: &Call,
    log: &mut String,
) -> Result<(), Wrong>
    ensures { MatchResult result (λ done. OneFollows number (call_asks call.now) side.old side.new (string_bytes log.old) (string_bytes log.new)) (Unwritten (string_bytes log.old) (string_bytes log.new)) }
{
    let lines = side.call(heap, number, call)?;
    write_lines(heading(number, call), &lines, log)?;
    Ok(())
}

impl Pair {
    // Shows what a directive made of both.
    fn show(
        &self,
        heading: Heading<'_>,
        first: &Lines,
        second: &Lines,
        log: &mut String,
    ) -> Result<(), AllocError>
        ensures { Adds result (both_text heading.entry.number heading.entry.directive.now (delay_of self.now.first) first.now (delay_of self.now.second) second.now) (string_bytes log.old) (string_bytes log.new) }
    {
        write_both_lines(
            heading,
            self.first.delayed(first),
            self.second.delayed(second),
            log,
        )
    }

    // Makes a call to both and shows it. Where they stand differently for the first time, they part.
    fn call(
        &mut self,
        heap: Global,
        number: u64,
        call: &Call,
        log: &mut String,
    ) -> Result<(), Wrong>
        ensures { MatchResult result (λ done. TwoFollow number (call_asks call.now) self.old self.new (string_bytes log.old) (string_bytes log.new)) (Unwritten (string_bytes log.old) (string_bytes log.new)) }
    {
        let first = self.first.call(heap, number, call)?;
        let second = self.second.call(heap, number, call)?;
        self.parted = self
            .parted
            .or((first.below != second.below).then_some(number));
        self.show(heading(number, call), &first, &second, log)?;
        Ok(())
    }
}

// A line of the cabinet part that is no directive of it: only one without a word is right.
fn check_no_bench(heap: Global, line: &[u8]) -> Result<(), Wrong>
    ensures { IfOk result (λ done. NoWord line.now) }
{
    // `map_or` with a unit in it is no plainer.
    match read_directive(heap, line)? {
        Some(_) => Err(Wrong::BenchAfterCabinet),
        None => Ok(()),
    }
}

impl Stage {
    fn follow(self, heap: Global, line: NumberedLine<'_>, log: &mut String) -> Result<Stage, Wrong>
        ensures { MatchResult result (LineFollowed line.entry.number line.entry.text.now (string_bytes log.old) (string_bytes log.new) self) (Unwritten (string_bytes log.old) (string_bytes log.new)) }
    {
        let NumberedLine { number, text } = line;
        match (self, read_cabinet_directive(heap, text)?) {
            (Stage::Bench(mut benches), None) => {
                benches.follow(heap, line, log)?;
                Ok(Stage::Bench(benches))
            }
            (Stage::Bench(benches), Some(CabinetDirective::Build(build))) => {
                benches.build(heap, number, build, log)
            }
            (Stage::Bench(_), Some(CabinetDirective::Call(_))) => Err(Wrong::NoCabinet),
            (stage, None) => {
                check_no_bench(heap, text)?;
                Ok(stage)
            }
            (_, Some(CabinetDirective::Build(_))) => Err(Wrong::SecondCabinet),
            (Stage::One(mut side), Some(CabinetDirective::Call(call))) => {
                call_one(&mut side, heap, number, &call, log)?;
                Ok(Stage::One(side))
            }
            (Stage::Two(mut pair), Some(CabinetDirective::Call(call))) => {
                pair.call(heap, number, &call, log)?;
                Ok(Stage::Two(pair))
            }
        }
    }
}

impl Replay {
    // A scenario from its first line on: the bench part, without drives.
    pub fn new(heap: Global) -> Replay
        ensures { StartsEmpty result.stage }
    {
        Replay {
            stage: Stage::Bench(Benches {
                first: Bench::new(heap),
                second: Bench::new(heap),
            }),
        }
    }

    // Follows a line of the scenario, and adds what it shows to the log.
    pub fn follow(
        self,
        heap: Global,
        line: NumberedLine<'_>,
        log: &mut String,
    ) -> Result<Replay, Wrong>
        ensures { MatchResult result (λ after. LineFollowed line.entry.number line.entry.text.now (string_bytes log.old) (string_bytes log.new) self.stage after.stage) (Unwritten (string_bytes log.old) (string_bytes log.new)) }
    {
        let stage = self.stage.follow(heap, line, log)?;
        Ok(Replay { stage })
    }

    // Closes the log: whether the watch of each cabinet ran out, and whether two parted. A bench run has no such lines.
    pub fn close(&self, log: &mut String) -> Result<(), AllocError>
        ensures { Adds result (closing_text self.now.stage) (string_bytes log.old) (string_bytes log.new) }
    {
        match &self.stage {
            Stage::Bench(_) => Ok(()),
            Stage::One(side) => write_run_out(side, log),
            Stage::Two(pair) => {
                write_run_out(&pair.first, log)?;
                write_run_out(&pair.second, log)?;
                write_parting(pair.parted, log)
            }
        }
    }
}
