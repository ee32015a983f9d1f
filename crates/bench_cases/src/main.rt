// Tests by a table: standard input holds scenarios, each on a bench of its own that begins after a line of dashes.
// What a line writes to the log is printed, or what is wrong with it; the next line is then followed all the same.
#![tactic(auto)]

use bench::run::Bench;
use lines::numbered::NumberedLine;
use std::io::{BufRead, BufReader};

// Follows one line, and prints what it shows.
fn print_line(rt: &HostRuntime, bench: &mut Bench, line: NumberedLine<'_>) -> anyhow::Result<()> {
    let number = line.number;
    let mut log = String::new(rt.alloc());
    if let Err(wrong) = bench.follow(rt.alloc(), line, &mut log) {
        println!(rt; "{number} wrong: {wrong}")?;
    }
    rt.print(log.as_str())?;
    Ok(())
}

fn main(rt: HostRuntime) -> anyhow::Result<()> {
    let mut input = BufReader::new(rt.alloc(), rt.stdin())?;
    let mut bench = Bench::new(rt.alloc());
    let mut line = Vec::new(rt.alloc());
    for number in 1..u64::MAX {
        line.clear();
        if input.read_until(b'\n', &mut line)? == 0 {
            break;
        }
        // Not `split`, which takes a last line without a newline whole: here its last byte goes, as every line's does.
        line.truncate(line.len().saturating_sub(1));
        match line.as_slice() {
            b"---" => bench = Bench::new(rt.alloc()),
            text => print_line(&rt, &mut bench, NumberedLine { number, text })?,
        }
    }
    Ok(())
}
