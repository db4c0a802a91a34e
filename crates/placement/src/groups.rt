// One group of a line: a base and the marks after it.
ghost use Rattle.std.specs.Prelude.{◌≡◌, ◌<◌, ◌≤◌, map, length};
ghost use Rattle.faces.specs.Boxes.{edges_of};
ghost use Rattle.placement.specs.Bases.{as_base};
ghost use Rattle.placement.specs.Lines.{cell, cells, positions_of};
ghost use Rattle.placement.specs.Placements.{less, zeroed, zeroed_position};
ghost use Rattle.placement.specs.Room.{AllGlyphs, AllLight, Light, Near, Within};
ghost use Rattle.placement.specs.Walks.{Known, base_at, began, walk_from, walked};
ghost use Rattle.signs.specs.Rows.{read_row};
ghost use Rattle.signs.specs.Signs.{row_of};

use crate::base::Base;
use crate::extents::Extents;
use crate::layout::Layout;
use crate::position::Position;
use crate::walk::Walk;
use faces::{Bounds, Face};
use signs::{Sign, SignRow};

// An offset, less its advance where the line adjusts. Both are numbers of a lent row, so a contract bounds them; so in `began`.
fn less(adjust: bool, offset: i32, advance: i32) -> i32
    requires offset { Within 40000000 offset }
    requires advance { Within 65535 advance }
    ensures { result ≡ less adjust offset advance }
{
    if adjust { offset - advance } else { offset }
}

// No advances; where the line adjusts, the offsets first go back by them.
fn zeroed_position(adjust: bool, position: Position) -> Position
    requires { Light position }
    ensures { result ≡ zeroed_position adjust position }
{
    Position {
        x_offset: less(adjust, position.x_offset, position.x_advance),
        y_offset: less(adjust, position.y_offset, position.y_advance),
        ..Position::default()
    }
}

// What the pen has gone by when it draws the first mark, taken back.
fn began(forward: bool, advance: i32) -> i32
    requires { Within 65535 advance }
    ensures { result ≡ began forward advance }
{
    if forward { -advance } else { 0 }
}

impl Walk {
    // The walk that a base begins.
    pub(crate) fn from_base(forward: bool, position: Position, base: Base) -> Walk
        requires { Light position }
        ensures { result ≡ walk_from forward position base.extents }
    {
        Walk {
            x: began(forward, position.x_advance),
            y: began(forward, position.y_advance),
            component: 0,
            class: 0,
            around: base.extents,
            run: base.extents,
        }
    }
}

impl<F: Face> Layout<'_, F> {
    // A mark after a base without a box: only nonspacing marks change.
    fn zeroed_mark(&self, row: SignRow, position: Position) -> Position
        requires { Light position }
        ensures { result ≡ (zeroed self.now.settings.adjust (cell (read_row row) position)).position }
    {
        if Sign::read(row).is_nonspacing_mark() {
            return zeroed_position(self.settings.adjust, position);
        }
        position
    }

    pub(crate) fn zero_mark_advances(&self, rows: &[SignRow], positions: &mut [Position])
        requires long { length positions.old ≡ length rows.now }
        requires light { AllLight positions.old }
        ensures { positions.new ≡ positions_of (map (zeroed self.now.settings.adjust) (cells rows.now positions.old)) }
    {
        // Positions by index: a proof knows nothing of what a `zip` over `iter_mut` wrote.
        for (i, row) in rows.iter().enumerate() {
            positions[i] = self.zeroed_mark(*row, positions[i]);
        }
    }

    // The base of a group, with a box of its own.
    pub(crate) fn base_at(&self, sign: Sign, bounds: Bounds, position: Position) -> Base
        requires glyph { (row_of sign).code ≤ 65535 }
        requires light { Light position }
        ensures { as_base result ≡ base_at (F.meaning self.now.face.now) (cell (row_of sign) position) (edges_of bounds) }
    {
        let own = Extents::of_base(self.face, sign.row().code as u16, bounds);
        Base {
            sign,
            extents: own.raised(position.y_offset),
        }
    }

    // The marks after a base with a box.
    pub(crate) fn position_along(
        &self,
        base: Base,
        start: Walk,
        rows: &[SignRow],
        positions: &mut [Position],
    )
        requires long { length positions.old ≡ length rows.now }
        requires few { length rows.now ≤ 256 }
        requires glyphs { AllGlyphs rows.now }
        requires light { AllLight positions.old }
        requires known { Known (as_base base) start }
        requires near { Near 0 start }
        ensures { positions.new ≡ positions_of (walked (F.meaning self.now.face.now) self.now.settings (as_base base) start (cells rows.now positions.old)) }
    {
        // Positions by index: a proof knows nothing of what a `zip` over `iter_mut` wrote.
        let mut walk = start;
        for (i, row) in rows.iter().enumerate() {
            let next = self.step(base, walk, *row, positions[i]);
            positions[i] = next.position;
            walk = next.walk;
        }
    }
}
