// The keeper's program: replays a scenario and writes its log.
//
//     gatelog [SCENARIO]
//
// The scenario is read from the file that the argument names, else from standard input.
#![tactic(auto)]

use anyhow::anyhow;
use lines::numbered::NumberedLine;
use replay::stage::Replay;
use std::env;
use std::fs::File;
use std::io::{BufRead, BufReader};
use std::process::ExitCode;

// The log is written in pieces of about this many bytes.
const PIECE: usize = 8192;

// The line without the newline that ends it; the last one may have none.
fn without_newline(line: &[u8]) -> &[u8] {
    line.strip_suffix(b"\n").unwrap_or(line)
}

// Replays the scenario line by line. What is wrong with a line ends it, after everything up to the line before is written.
// One vector serves all lines: `split` of the library makes one for each, and long lines can then take twice the memory.
fn replay_scenario(rt: &HostRuntime, mut input: impl BufRead + Drop) -> anyhow::Result<()> {
    let heap = rt.alloc();
    let mut replay = Replay::new(heap);
    let mut log = String::new(heap);
    let mut line = Vec::new(heap);
    for number in 1..u64::MAX {
        line.clear();
        if input.read_until(b'\n', &mut line)? == 0 {
            break;
        }
        let text = without_newline(line.as_slice());
        replay = match replay.follow(heap, NumberedLine { number, text }, &mut log) {
            Ok(next) => next,
            // The log goes out before the error, which `map_err` could not see to.
            Err(wrong) => {
                rt.print(log.as_str())?;
                return Err(anyhow!("line {number}: {wrong}"));
            }
        };
        if log.len() >= PIECE {
            rt.print(log.as_str())?;
            log.clear();
        }
    }
    replay.close(&mut log)?;
    rt.print(log.as_str())?;
    Ok(())
}

fn run(rt: &HostRuntime) -> anyhow::Result<()> {
    let mut arguments = env::args(rt)?.skip(1);
    match (arguments.next(), arguments.next()) {
        (None, _) => replay_scenario(rt, BufReader::new(rt.alloc(), rt.stdin())?),
        (Some(path), None) => replay_scenario(
            rt,
            BufReader::new(rt.alloc(), File::open(rt, path.as_str())?)?,
        ),
        (Some(_), Some(_)) => Err(anyhow!("usage: gatelog [SCENARIO]")),
    }
}

fn main(rt: HostRuntime) -> ExitCode {
    match run(&rt) {
        Ok(()) => ExitCode::SUCCESS,
        Err(error) => {
            // The status tells of the error also where standard error takes nothing.
            let _ = eprintln!(rt; "{error}");
            ExitCode::FAILURE
        }
    }
}
