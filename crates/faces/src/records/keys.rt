// How each kind of record is ordered, and which may make a face.
ghost use Rattle.faces.specs.Records.{code_key, code_sound, glyph_key, glyph_sound};

use crate::keyed::Keyed;
use crate::records::{CodeRecord, GlyphRecord};

impl Keyed for GlyphRecord {
    ghost key_of = { glyph_key };

    ghost soundness = { glyph_sound };

    fn key(&self) -> u32 {
        self.glyph as u32
    }

    // The edges are not crossed, the test of `Bounds::new` without making a box; without a box they are not looked at.
    fn is_sound(&self) -> bool {
        !self.has_box || self.left <= self.right && self.bottom <= self.top
    }
}

impl Keyed for CodeRecord {
    ghost key_of = { code_key };

    ghost soundness = { code_sound };

    fn key(&self) -> u32 {
        self.code
    }

    // A glyph other than 0, and a code that Unicode has.
    fn is_sound(&self) -> bool {
        1 <= self.glyph && self.code <= 0x10FFFF
    }
}
