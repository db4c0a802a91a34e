// A case: a face of one base and one mark, the mark's class and the line's direction, as twelve numbers.
use anyhow::anyhow;
use faces::{GlyphRecord, RecordFace};
use placement::{Direction, position_one_mark};
use std::alloc::Global;

#[derive(Clone, Copy)]
pub struct Case {
    em: u32,
    base: GlyphRecord,
    mark: GlyphRecord,
    class: u8,
    direction: Direction,
}

// A glyph with a box of left, bottom, right and top. This program's own: for all it would be one more public function of
// `faces`.
pub fn boxed(glyph: u16, across: u16, edges: [i16; 4]) -> GlyphRecord {
    let [left, bottom, right, top] = edges;
    GlyphRecord {
        glyph,
        across,
        down: 1000,
        has_box: true,
        left,
        bottom,
        right,
        top,
    }
}

fn edges(left: i32, bottom: i32, right: i32, top: i32) -> anyhow::Result<[i16; 4]> {
    Ok([
        i16::try_from(left)?,
        i16::try_from(bottom)?,
        i16::try_from(right)?,
        i16::try_from(top)?,
    ])
}

// One message of this program for any number that stands for none.
fn direction(number: i32) -> anyhow::Result<Direction> {
    u8::try_from(number)
        .ok()
        .and_then(|number| Direction::try_from(number).ok())
        .ok_or_else(|| anyhow!("a direction is 1 to 4"))
}

// em, the base's advance across, its box, the mark's box, class, direction (1 to 4: right, left, down, up).
pub fn read_case(heap: Global, line: &str) -> anyhow::Result<Case> {
    let numbers = line
        .split(',')
        .map(|field| -> anyhow::Result<i32> { Ok(field.parse::<i32>()?) })
        .try_collect::<Vec<i32>>(heap)?;
    let [
        em,
        across,
        left,
        bottom,
        right,
        top,
        mark_left,
        mark_bottom,
        mark_right,
        mark_top,
        class,
        way,
    ] = numbers.as_slice()
    else {
        return Err(anyhow!("a case has twelve numbers"));
    };
    let base = edges(*left, *bottom, *right, *top)?;
    let mark = edges(*mark_left, *mark_bottom, *mark_right, *mark_top)?;
    Ok(Case {
        em: u32::try_from(*em)?,
        base: boxed(1, u16::try_from(*across)?, base),
        mark: boxed(2, 300, mark),
        class: u8::try_from(*class)?,
        direction: direction(*way)?,
    })
}

// Where the mark lies from the base's origin.
pub fn answer(case: &Case) -> Option<(i32, i32)> {
    let glyphs = [case.base, case.mark];
    let face = RecordFace::new(case.em, &glyphs, &[]).ok()?;
    let placed = position_one_mark(&face, 1, 2, case.class, case.direction)?;
    Some((placed.x, placed.y))
}
