// The lines of the log.
ghost use Rattle.std.specs.Prelude.{Some};
ghost use Rattle.bench.specs.Texts.{answer_text, line_text};

use drive_log::drive::ShownDrive;
use drives::target::Refusal;
use std::fmt;

// The answer of a take, with a space after it; nothing for any other operation.
#[derive(Clone, Copy)]
pub struct ShownAnswer(pub Option<Result<(), Refusal>>);

impl fmt::Display for ShownAnswer {
    ghost output = { λ a. Some (answer_text a.0) };

    fn fmt<W: fmt::Write>(&self, f: &mut fmt::Formatter<W>) -> fmt::Result {
        match self.0 {
            Some(Ok(())) => write!(f, "taken "),
            Some(Err(refusal)) => {
                let cause = u8::from(refusal.cause);
                let depth = refusal.depth;
                write!(f, "refused cause={cause} depth={depth} ")
            }
            None => Ok(()),
        }
    }
}

// One line of the bench part: the line's number in the scenario, the directive, the answer of a take, the drive.
#[derive(Clone, Copy)]
pub struct BenchLine {
    pub line: u64,
    pub directive: &'static str,
    pub answer: Option<Result<(), Refusal>>,
    pub drive: ShownDrive,
}

impl fmt::Display for BenchLine {
    ghost output = { λ l. Some (line_text l.line l.directive.now l.answer l.drive.number l.drive.held) };

    fn fmt<W: fmt::Write>(&self, f: &mut fmt::Formatter<W>) -> fmt::Result {
        let line = self.line;
        let directive = self.directive;
        let answer = ShownAnswer(self.answer);
        let drive = self.drive;
        write!(f, "{line} {directive}: {answer}{drive}")
    }
}
