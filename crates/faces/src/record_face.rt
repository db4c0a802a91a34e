// A face that is two lists of records, lent by the caller: glyphs rising by glyph, codes rising by code.
ghost use Rattle.std.specs.Prelude.{◌≡◌, ◌≤◌, true};
ghost use Rattle.faces.specs.Keys.{every};
ghost use Rattle.faces.specs.Records.{code_sound, glyph_sound};

use crate::keyed::rising::Rising;
use crate::records::{CodeRecord, GlyphRecord};

pub mod answers;
pub mod made;

#[derive(Clone, Copy)]
pub struct RecordFace<'a> {
    em: u16,
    glyphs: Rising<'a, GlyphRecord>,
    codes: Rising<'a, CodeRecord>,
    ghost em_low: { 16 ≤ em },
    ghost em_high: { em ≤ 16384 },
    ghost glyphs_sound: { every glyph_sound glyphs.rows.now ≡ true },
    ghost codes_sound: { every code_sound codes.rows.now ≡ true },
}
