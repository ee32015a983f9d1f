// Tests by a table: standard input holds scenarios, each of which begins after a line of dashes and has its own line
// numbers. The log of each is printed as `gatelog` prints it; a wrong line ends its scenario with a line that says so.
#![tactic(auto)]

use lines::numbered::NumberedLine;
use replay::stage::Replay;
use std::io::{BufRead, BufReader};

// Reads the next line, without its last byte, which is the newline unless a last line has none. Tells whether there is
// one. Not by `split`, which takes such a line whole.
fn read_line<R: BufRead>(input: &mut R, line: &mut Vec<u8>) -> anyhow::Result<bool> {
    line.clear();
    let length = input.read_until(b'\n', line)?;
    line.truncate(length.saturating_sub(1));
    Ok(length > 0)
}

// Passes over the rest of a scenario. Tells whether there is another after it.
fn pass_over<R: BufRead>(input: &mut R, line: &mut Vec<u8>) -> anyhow::Result<bool> {
    for _ in 0..u64::MAX {
        if !read_line(input, line)? {
            break;
        }
        if let b"---" = line.as_slice() {
            return Ok(true);
        }
    }
    Ok(false)
}

// Replays one scenario up to the line of dashes. Tells whether there is another after it.
fn replay_one<R: BufRead>(rt: &HostRuntime, input: &mut R) -> anyhow::Result<bool> {
    let heap = rt.alloc();
    let mut log = String::new(heap);
    let mut replay = Replay::new(heap);
    // Told at the end, since the log is closed first.
    let mut more = false;
    let mut line = Vec::new(heap);
    for number in 1..u64::MAX {
        if !read_line(input, &mut line)? {
            break;
        }
        let text = line.as_slice();
        if let b"---" = text {
            more = true;
            break;
        }
        replay = match replay.follow(heap, NumberedLine { number, text }, &mut log) {
            Ok(next) => next,
            Err(wrong) => {
                rt.print(log.as_str())?;
                println!(rt; "line {number}: {wrong}")?;
                return pass_over(input, &mut line);
            }
        };
    }
    replay.close(&mut log)?;
    rt.print(log.as_str())?;
    Ok(more)
}

fn main(rt: HostRuntime) -> anyhow::Result<()> {
    let mut input = BufReader::new(rt.alloc(), rt.stdin())?;
    for _ in 0..u64::MAX {
        if !replay_one(&rt, &mut input)? {
            break;
        }
    }
    Ok(())
}
