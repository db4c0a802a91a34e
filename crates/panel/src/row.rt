// A whole line of a panel: gate A closed, gate B locked, gate C open.
use crate::gate::{ABOVE, BAR_BENEATH, BAR_OVER, BELOW, LETTER};
use anyhow::anyhow;
use drawings::{Item, Pen, Room, draw_line};
use faces::{CodeRecord, GlyphRecord, RecordFace};
use placement::{Position, Settings, route_line};
use signs::SignRow;

// This program's own: for all it would be one more public function of `faces`.
fn boxed(glyph: u16, across: u16, right: i16, top: i16) -> GlyphRecord {
    GlyphRecord {
        glyph,
        across,
        down: 1000,
        has_box: true,
        left: 0,
        bottom: 0,
        right,
        top,
    }
}

// An uppercase letter.
fn letter(code: u32) -> SignRow {
    SignRow {
        code,
        unicode_props: 9,
        ..SignRow::default()
    }
}

// A nonspacing mark of a combining class.
fn bar(code: u32, class: u8) -> SignRow {
    SignRow {
        code,
        unicode_props: u16::from(class) * 256 + 12,
        ..SignRow::default()
    }
}

pub fn show_row(rt: &impl Print) -> anyhow::Result<()> {
    let glyphs = [
        boxed(1, 600, 600, 700),
        boxed(2, 300, 300, 60),
        boxed(3, 600, 560, 700),
        boxed(4, 600, 580, 700),
    ];
    let codes = [
        CodeRecord {
            code: LETTER,
            glyph: 1,
        },
        CodeRecord {
            code: 0x42,
            glyph: 3,
        },
        CodeRecord {
            code: 0x43,
            glyph: 4,
        },
        CodeRecord {
            code: BAR_OVER,
            glyph: 2,
        },
        CodeRecord {
            code: BAR_BENEATH,
            glyph: 2,
        },
    ];
    let face = RecordFace::new(1000, &glyphs, &codes).map_err(|_| anyhow!(
        "the panel font is refused"
    ))?;
    let mut rows = [
        letter(LETTER),
        bar(BAR_BENEATH, BELOW),
        letter(0x42),
        bar(BAR_OVER, ABOVE),
        letter(0x43),
    ];
    let settings = Settings::default();
    let mut positions = [Position::default(); 5];
    route_line(&face, settings, &mut rows, &mut positions).map_err(|_| anyhow!(
        "the line is refused"
    ))?;
    let mut items = [Item::default(); 5];
    let mut pens = [Pen::default(); 5];
    let mut room = Room {
        items: &mut items,
        pens: &mut pens,
    };
    draw_line(settings, &rows, &positions, &mut room).map_err(|_| anyhow!("the line is refused"))?;
    println!(rt; "Gates A, B and C in a row, A closed, B locked and C open:")?;
    for item in &items {
        println!(rt; "  glyph {} at {}, {}", item.glyph, item.x, item.y)?;
    }
    Ok(())
}
