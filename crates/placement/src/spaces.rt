// Spaces: a space that is no ligature gets an advance by its type.
ghost use Rattle.std.specs.Prelude.{◌≡◌, ◌-◌, ◌≤◌, map, length};
ghost use Rattle.placement.specs.Directions.{is_horizontal};
ghost use Rattle.placement.specs.Lines.{cells, positions_of};
ghost use Rattle.placement.specs.Spaces.{advance_by, first_advance, kind, respaced, size, space_position, spaced_along};
ghost use Rattle.signs.specs.Rows.{read_row};

use crate::layout::Layout;
use crate::position::Position;
use crate::space::Space;
use faces::Face;
use signs::{Sign, SignRow};
use std::ops::Range;

// A size along the line.
fn sized(horizontal: bool, units: u32) -> i32
    requires { units ≤ 65535 }
    ensures { result ≡ size horizontal units }
{
    if horizontal {
        units as i32
    } else {
        -(units as i32)
    }
}

impl<F: Face> Layout<'_, F> {
    // The advance of the first of some codes that has a glyph.
    fn first_advance(&self, mut codes: Range<u32>) -> Option<i32>
        ensures { result ≡ first_advance (F.meaning self.now.face.now) (is_horizontal self.now.settings.direction) codes.start (codes.end - codes.start) }
    {
        let glyph = codes.find_map(|code| self.face.glyph(code))?;
        Some(self.advance_along(glyph))
    }

    // The advance of a space by the number of its type, or none where it keeps its own.
    fn space_advance(&self, number: u8, position: Position) -> Option<i32>
        ensures { result ≡ advance_by (F.meaning self.now.face.now) (is_horizontal self.now.settings.direction) position (kind number) }
    {
        let horizontal = self.is_horizontal();
        let em = u32::from(self.face.em());
        match Space::from(number) {
            Space::Fraction(parts) => {
                let parts = u32::from(parts);
                Some(sized(horizontal, (em + parts / 2) / parts))
            }
            Space::FourEighteenths => Some(sized(horizontal, em * 4 / 18)),
            Space::Digit => self.first_advance(48..58),
            // By hand: `or` looks the comma up at every stop, and the contract that the check infers for a closure of `or_else` is empty here.
            Space::Stop => match self.first_advance(46..47) {
                Some(advance) => Some(advance),
                None => self.first_advance(44..45),
            },
            Space::Half => Some(position.advance(horizontal) / 2),
            Space::Own => None,
        }
    }

    // The position of a space by the number of its type.
    fn respace(&self, number: u8, position: Position) -> Position
        ensures { result ≡ respaced (F.meaning self.now.face.now) (is_horizontal self.now.settings.direction) number position }
    {
        let horizontal = self.is_horizontal();
        self.space_advance(number, position).map_or(
            position,
            |advance| position.with_advance(horizontal, advance),
        )
    }

    fn space_position(&self, row: SignRow, position: Position) -> Position
        ensures { result ≡ space_position (F.meaning self.now.face.now) (is_horizontal self.now.settings.direction) (read_row row) position }
    {
        let sign = Sign::read(row);
        if sign.is_space() && !sign.is_ligated() {
            return self.respace(sign.space_type(), position);
        }
        position
    }

    // Gives every space of a line its advance.
    pub(crate) fn fallback_spaces(&self, rows: &[SignRow], positions: &mut [Position])
        requires { length positions.old ≡ length rows.now }
        ensures { positions.new ≡ positions_of (map (spaced_along (F.meaning self.now.face.now) (is_horizontal self.now.settings.direction)) (cells rows.now positions.old)) }
    {
        // Positions by index: a proof knows nothing of what a `zip` over `iter_mut` wrote.
        for (i, row) in rows.iter().enumerate() {
            positions[i] = self.space_position(*row, positions[i]);
        }
    }
}
