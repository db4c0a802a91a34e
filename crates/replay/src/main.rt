// Places one mark on one base for each line of standard input; the stored output is what the original answers.
#![tactic(auto)]

mod cases;
#[cfg(test)]
mod line_tests;
#[cfg(test)]
mod tests;

use cases::{Case, answer, read_case};
use std::io::{BufRead, BufReader};

fn run(rt: &HostRuntime) -> anyhow::Result<()> {
    for line in BufReader::new(rt.alloc(), rt.stdin())?.lines(rt.alloc()) {
        let line = line?;
        let case: Case = read_case(rt.alloc(), line.as_str())?;
        match answer(&case) {
            Some((x, y)) => println!(rt; "{x},{y}")?,
            None => println!(rt; "none")?,
        }
    }
    Ok(())
}

fn main(rt: HostRuntime) -> anyhow::Result<()> {
    run(&rt)
}
