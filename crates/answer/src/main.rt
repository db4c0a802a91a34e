// Answers cases: each is a face, the settings of a line and its signs. The stored output is what the original answers.
#![tactic(auto)]

mod answers;
mod case;
mod drawing;
mod line;
mod pen;
mod reading;
mod script;
mod stop;

use answers::answer;
use case::Case;
use std::io::{BufRead, BufReader, BufWriter, Write};

fn run(rt: &HostRuntime) -> anyhow::Result<()> {
    let mut out = BufWriter::new(rt.alloc(), rt.stdout())?;
    let mut case = Case::new(rt.alloc(), "")?;
    for line in BufReader::new(rt.alloc(), rt.stdin())?.lines(rt.alloc()) {
        let line = line?;
        if case.take_line(rt.alloc(), line.as_str())? {
            answer(rt.alloc(), &mut out, &case)?;
        }
    }
    out.flush()?;
    Ok(())
}

fn main(rt: HostRuntime) -> anyhow::Result<()> {
    run(&rt)
}
