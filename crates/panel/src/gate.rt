// The sign of a gate: a letter, and a bar beneath it for closed or over it for locked.
ghost use Rattle.std.specs.Prelude.{◌≡◌};
ghost use Rattle.faces.specs.Refusals.{outcome};
ghost use Rattle.panel.specs.Gate.{closed_and_locked, sign_of};

use faces::{CodeRecord, Face, GlyphRecord, RecordFace, Refusal};
use placement::{Direction, position_one_mark};

// U+0041, U+0332 combining low line and U+0305 combining overline.
pub const LETTER: u32 = 0x41;

pub const BAR_BENEATH: u32 = 0x332;

pub const BAR_OVER: u32 = 0x305;

// The combining classes of the two bars; no enum of bars, as `gate_sign` takes any mark.
pub const BELOW: u8 = 220;

pub const ABOVE: u8 = 230;

// The glyphs of a letter and its bar, and where the bar lies from the letter's origin.
#[derive(Clone, Copy)]
pub struct GateSign {
    pub letter: u16,
    pub bar: u16,
    pub x: i32,
    pub y: i32,
}

// The sign of a letter with a bar of a class; none where the face lacks a glyph or a box.
pub fn gate_sign<F: Face>(face: &F, letter: u32, bar: u32, class: u8) -> Option<GateSign>
    ensures { result ≡ sign_of (F.meaning face.now) letter bar class }
{
    let letter = face.glyph(letter)?;
    let bar = face.glyph(bar)?;
    let placed = position_one_mark(face, letter, bar, class, Direction::LeftToRight)?;
    Some(GateSign {
        letter,
        bar,
        x: placed.x,
        y: placed.y,
    })
}

// The two signs of one gate over the panel font, in which both bars are one glyph.
pub fn closed_and_locked() -> Result<(Option<GateSign>, Option<GateSign>), Refusal>
    ensures { outcome (λ s. s) result ≡ closed_and_locked }
{
    // Spelt out, as the proof computes what this face answers.
    let glyphs = [
        GlyphRecord {
            glyph: 1,
            across: 600,
            down: 1000,
            has_box: true,
            left: 0,
            bottom: 0,
            right: 600,
            top: 700,
        },
        GlyphRecord {
            glyph: 2,
            across: 300,
            down: 1000,
            has_box: true,
            left: 0,
            bottom: 0,
            right: 300,
            top: 60,
        },
    ];
    let codes = [
        CodeRecord {
            code: LETTER,
            glyph: 1,
        },
        CodeRecord {
            code: BAR_OVER,
            glyph: 2,
        },
        CodeRecord {
            code: BAR_BENEATH,
            glyph: 2,
        },
    ];
    let face = RecordFace::new(1000, &glyphs, &codes)?;
    let closed = gate_sign(&face, LETTER, BAR_BENEATH, BELOW);
    let locked = gate_sign(&face, LETTER, BAR_OVER, ABOVE);
    Ok((closed, locked))
}
