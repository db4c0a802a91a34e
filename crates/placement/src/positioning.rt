// Placing the marks of a line, group by group. Rows and positions stay two parameters, here as in `groups`, `mapping` and
// `spaces`: the parts of both are lent on, which the borrow checker refuses for the fields of a lent struct. So contracts say
// that the lists are equally long, few, of glyphs and light: no value holds both lists, to say it in its type.
ghost use Rattle.std.specs.Prelude.{◌≡◌, ◌<◌, ◌≤◌, length};
ghost use Rattle.std.specs.List.{position};
ghost use Rattle.placement.specs.Lines.{cells, positions_of};
ghost use Rattle.placement.specs.Marks.{base_after, is_base, marks};
ghost use Rattle.placement.specs.Placements.{group, placed_line};
ghost use Rattle.placement.specs.Room.{AllGlyphs, AllLight};

use crate::layout::Layout;
use crate::position::Position;
use crate::walk::Walk;
use faces::Face;
use signs::{Sign, SignRow};

fn is_base(row: SignRow) -> bool
    ensures { result ≡ is_base row }
{
    !Sign::read(row).is_mark()
}

fn first_base(rows: &[SignRow]) -> Option<usize>
    ensures { result ≡ position is_base rows.now }
{
    rows.iter().position(|row| is_base(*row))
}

// How many marks a list begins with.
fn marks_ahead(rows: &[SignRow]) -> usize
    ensures value { result ≡ marks rows.now }
    ensures few { result ≤ length rows.now }
{
    first_base(rows).unwrap_or(rows.len())
}

// The first sign from a place on that is no mark, or the length.
fn base_after(rows: &[SignRow], place: usize) -> usize
    requires { place ≤ length rows.now }
    ensures value { result ≡ base_after rows.now place }
    ensures ends { (place ≤ result) × (result ≤ length rows.now) }
{
    place + marks_ahead(&rows[place..])
}

// The first place from one on that has no mark: past the end there is none.
pub fn next_base(rows: &[SignRow], place: usize) -> usize
    ensures value { result ≡ base_after rows.now place }
    ensures end { place ≤ length rows.now → result ≤ length rows.now }
{
    if place > rows.len() {
        return place;
    }
    base_after(rows, place)
}

impl<F: Face> Layout<'_, F> {
    // A base and its marks. A base without a box ends the group early, in the form of the original, which the project keeps.
    fn position_around_base(&self, rows: &[SignRow], positions: &mut [Position])
        requires some { 0 < length rows.now }
        requires long { length positions.old ≡ length rows.now }
        requires few { length rows.now ≤ 256 }
        requires glyphs { AllGlyphs rows.now }
        requires light { AllLight positions.old }
        ensures { positions.new ≡ positions_of (group (F.meaning self.now.face.now) self.now.settings (cells rows.now positions.old)) }
    {
        let sign = Sign::read(rows[0]);
        let Some(bounds) = self.face.bounds(sign.row().code as u16) else {
            self.zero_mark_advances(&rows[1..], &mut positions[1..]);
            return;
        };
        let position = positions[0];
        let base = self.base_at(sign, bounds, position);
        let walk = Walk::from_base(self.settings.direction.is_forward(), position, base);
        self.position_along(base, walk, &rows[1..], &mut positions[1..]);
    }

    pub(crate) fn position_marks(&self, rows: &[SignRow], positions: &mut [Position])
        requires long { length positions.old ≡ length rows.now }
        requires few { length rows.now ≤ 256 }
        requires glyphs { AllGlyphs rows.now }
        requires light { AllLight positions.old }
        ensures { positions.new ≡ positions_of (placed_line (F.meaning self.now.face.now) self.now.settings (cells rows.now positions.old)) }
    {
        // A `while`, since each step lends on a middle part of both lists; `chunk_by` cuts only one.
        let n = rows.len();
        let mut i = base_after(rows, 0);
        while i < n {
            let j = base_after(rows, i + 1);
            self.position_around_base(&rows[i..j], &mut positions[i..j]);
            i = j;
        }
    }
}
