// Tells the incident of one gate on the panel: what a keeper sees after each report, and the end drawn from blank beside it.
#![tactic(auto)]

mod font;
mod shown;

use anyhow::Context;
use drawings::Item;
use shown::Shown;
use shown::telling::on_the_panel;

// One line for each item; it is printed here alone, so an impl Display of a type of its own would be no plainer.
fn show(rt: &impl Print, words: &str, items: &[Item]) -> anyhow::Result<()> {
    println!(rt; "{words}")?;
    for item in items {
        println!(rt;
            "  place {}: glyph {} at {}, {}",
            item.place, item.glyph, item.x, item.y
        )?;
    }
    Ok(())
}

fn tell(rt: &impl Print, shown: &Shown) -> anyhow::Result<()> {
    println!(rt;
        "Right and up from where the pen starts, 1000 units to the em. Both bars are glyph 2."
    )?;
    let looks = [
        ("The legend is made:", shown.story.blank),
        ("The gate's letter is put:", shown.story.letter),
        ("The gate is locked, the bar lies over:", shown.story.locked),
        (
            "The gate is closed, the bar lies beneath:",
            shown.story.closed,
        ),
        ("The same, drawn from blank:", shown.from_blank),
        (
            "The legend is turned to run from right to left:",
            shown.story.turned,
        ),
    ];
    for (words, items) in &looks {
        show(rt, words, items)?;
    }
    Ok(())
}

fn run(rt: &impl Print) -> anyhow::Result<()> {
    let shown = on_the_panel().context("the panel font is refused")?;
    tell(rt, &shown)
}

fn main(rt: HostRuntime) -> anyhow::Result<()> {
    run(&rt)
}
