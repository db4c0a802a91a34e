// Mapping: the face's glyph in place of each code, and its advance along the line.
ghost use Rattle.std.specs.Prelude.{◌≡◌, map, length};
ghost use Rattle.placement.specs.Directions.{is_horizontal};
ghost use Rattle.placement.specs.Mapped.{advanced, along, glyph_for, map_position, map_row};

use crate::layout::Layout;
use crate::position::Position;
use faces::Face;
use signs::{Sign, SignRow};

impl<F: Face> Layout<'_, F> {
    // The glyph that stands for a code: 0 if the face has none.
    fn glyph_for(&self, code: u32) -> u16
        ensures { result ≡ glyph_for (F.meaning self.now.face.now) code }
    {
        self.face.glyph(code).unwrap_or(0)
    }

    // The advance of a glyph along the line.
    pub(crate) fn advance_along(&self, glyph: u16) -> i32
        ensures { result ≡ along (F.meaning self.now.face.now) (is_horizontal self.now.settings.direction) glyph }
    {
        if self.is_horizontal() {
            self.face.across(glyph) as i32
        } else {
            self.face.down(glyph)
        }
    }

    fn map_row(&self, row: SignRow) -> SignRow
        ensures { result ≡ map_row (F.meaning self.now.face.now) row }
    {
        SignRow {
            code: u32::from(self.glyph_for(row.code)),
            ..Sign::read(row).row()
        }
    }

    fn map_position(&self, row: SignRow) -> Position
        ensures { result ≡ map_position (F.meaning self.now.face.now) (is_horizontal self.now.settings.direction) row }
    {
        let advance = self.advance_along(self.glyph_for(row.code));
        Position::default().with_advance(self.is_horizontal(), advance)
    }

    pub(crate) fn map_all(&self, rows: &mut [SignRow], positions: &mut [Position])
        requires { length positions.old ≡ length rows.old }
        ensures rows { rows.new ≡ map (map_row (F.meaning self.now.face.now)) rows.old }
        ensures positions { positions.new ≡ map (map_position (F.meaning self.now.face.now) (is_horizontal self.now.settings.direction)) rows.old }
    {
        // Positions by index: a proof knows nothing of what a `zip` over `iter_mut` wrote.
        for (i, row) in rows.iter_mut().enumerate() {
            positions[i] = self.map_position(*row);
            *row = self.map_row(*row);
        }
    }
}
