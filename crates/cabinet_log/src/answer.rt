// What a call answers: the text after the directive.
ghost use Rattle.std.specs.Prelude.{Some};
ghost use Rattle.cabinet_log.specs.AnswerTexts.{build_text, bytes_text, cycle_text, request_text};

use cabinet::cycle::{Cycled, answer_number};
use cabinet::request::AlAnswer;
use drive_log::word::{ShownWord, hex_digit};
use std::fmt;

// A cabinet is built: how many axes it has, and its delay.
#[derive(Clone, Copy)]
pub struct ShownBuild {
    pub axes: u8,
    pub delay: u16,
}

impl fmt::Display for ShownBuild {
    ghost output = { λ a. Some (build_text a.axes a.delay) };

    fn fmt<W: fmt::Write>(&self, f: &mut fmt::Formatter<W>) -> fmt::Result {
        let axes = self.axes;
        let delay = self.delay;
        write!(f, "axes={axes} delay={delay}")
    }
}

// An AL request: AL status and code.
#[derive(Clone, Copy)]
pub struct ShownRequest(pub AlAnswer);

impl fmt::Display for ShownRequest {
    ghost output = { λ a. Some (request_text a.0.status a.0.code) };

    fn fmt<W: fmt::Write>(&self, f: &mut fmt::Formatter<W>) -> fmt::Result {
        let status = ShownWord(self.0.status);
        let code = ShownWord(self.0.code);
        write!(f, "status={status} code={code}")
    }
}

// Bytes, two hexadecimal digits for each.
#[derive(Clone, Copy)]
pub struct ShownBytes<'a>(pub &'a [u8]);

impl<'a> fmt::Display for ShownBytes<'a> {
    ghost output = { λ b. Some (bytes_text b.0.now) };

    fn fmt<W: fmt::Write>(&self, f: &mut fmt::Formatter<W>) -> fmt::Result {
        for byte in self.0 {
            let high = hex_digit(u16::from(*byte) / 16);
            let low = hex_digit(u16::from(*byte));
            write!(f, "{high}{low}")?;
        }
        Ok(())
    }
}

// A cycle: its answer, AL status, and the return image, which a refused cycle has kept as it was.
#[derive(Clone, Copy)]
pub struct ShownCycle<'a> {
    pub cycled: Cycled,
    pub image: &'a [u8],
}

impl<'a> fmt::Display for ShownCycle<'a> {
    ghost output = { λ c. Some (cycle_text c.cycled c.image.now) };

    fn fmt<W: fmt::Write>(&self, f: &mut fmt::Formatter<W>) -> fmt::Result {
        let number = answer_number(self.cycled.answer);
        let status = ShownWord(self.cycled.status);
        match self.cycled.answer {
            Ok(()) => {
                let image = ShownBytes(self.image);
                write!(f, "answer={number} status={status} image={image}")
            }
            Err(_) => write!(f, "answer={number} status={status} image=kept"),
        }
    }
}
