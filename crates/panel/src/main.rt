// Prints how one gate's sign is drawn when the gate is closed and when it is locked, and a row of three gates.
#![tactic(auto)]

mod gate;
mod row;

use anyhow::anyhow;
use gate::{GateSign, closed_and_locked};
use row::show_row;

// Printed here alone, so a `Display` would be no plainer.
fn show(rt: &impl Print, state: &str, side: &str, sign: Option<GateSign>) -> anyhow::Result<()> {
    let sign = sign.ok_or_else(|| anyhow!("the panel font lacks a glyph or a box of this sign"))?;
    println!(rt; "Gate A is {state}: the bar lies {side} the letter.")?;
    println!(rt; "  letter: glyph {} at 0, 0", sign.letter)?;
    println!(rt; "  bar: glyph {} at {}, {}", sign.bar, sign.x, sign.y)?;
    Ok(())
}

fn run(rt: &impl Print) -> anyhow::Result<()> {
    let (closed, locked) = closed_and_locked().map_err(|_| anyhow!("the panel font is refused"))?;
    println!(rt; "Right and up from the letter's origin, 1000 units to the em.")?;
    show(rt, "closed", "beneath", closed)?;
    show(rt, "locked", "over", locked)?;
    show_row(rt)
}

fn main(rt: HostRuntime) -> anyhow::Result<()> {
    run(&rt)
}
