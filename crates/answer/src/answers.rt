// Answering a case: its line goes through the steps, and what comes of it is printed.
use crate::case::Case;
use crate::line::Line;
use crate::stop::Stop;
use faces::RecordFace;
use std::alloc::Global;
use std::io::Write;

fn answer_line(heap: Global, out: &mut impl Write, case: &Case) -> Result<(), Stop> {
    let face = RecordFace::new(case.em, case.glyphs.as_slice(), case.codes.as_slice())?;
    let drawing = Line::written(heap, case)?.drawn(heap, out, &face, case)?;
    for item in &drawing.items {
        writeln!(out, "draw,{item}")?;
    }
    writeln!(out, "pen,{}", drawing.pen)?;
    Ok(())
}

// Prints the answer of a case.
pub fn answer(heap: Global, out: &mut impl Write, case: &Case) -> anyhow::Result<()> {
    writeln!(out, "case,{}", case.label)?;
    match answer_line(heap, out, case) {
        Ok(()) => {}
        Err(Stop::Face(refusal)) => writeln!(out, "refused,{}", u8::from(refusal))?,
        Err(Stop::Line(refusal)) => writeln!(out, "refused,{}", u8::from(refusal))?,
        Err(Stop::Failure(error)) => return Err(error),
    }
    writeln!(out, "end")?;
    Ok(())
}
