// The boxes that placement works on, in font units from the origin of the base.
ghost use Rattle.std.specs.Prelude.{◌≡◌, pos};
ghost use Rattle.faces.specs.Boxes.{edges_of};
ghost use Rattle.placement.specs.Lines.{at};
ghost use Rattle.placement.specs.OneMark.{box_on};
ghost use Rattle.placement.specs.Room.{Spans, Within};
ghost use Rattle.placement.specs.Walks.{raised};

use crate::position::Position;
use faces::{Bounds, Face};

#[repr(C)]
#[derive(Clone, Copy, PartialEq, Eq, Debug)]
pub struct Extents {
    pub left: i32,
    pub width: i32,
    pub bottom: i32,
    pub top: i32,
}

// Where the origin of a mark goes, and the box of its run with the mark in it.
#[repr(C)]
#[derive(Clone, Copy, PartialEq, Eq, Debug)]
pub struct PlacedMark {
    pub x: i32,
    pub y: i32,
    pub run: Extents,
}

impl PlacedMark {
    // The mark drawn there, with no advances.
    pub(crate) fn position(self) -> Position
        ensures { result ≡ at (pos 0) (pos 0) self.x self.y }
    {
        Position {
            x_offset: self.x,
            y_offset: self.y,
            ..Position::default()
        }
    }
}

impl Extents {
    // The box of a base: as wide as its advance across, from its own bottom to its own top.
    pub(crate) fn of_base<F: Face>(face: &F, glyph: u16, bounds: Bounds) -> Extents
        ensures value { result ≡ box_on ((F.meaning face.now).across glyph) (edges_of bounds) }
        ensures spans { Spans 32768 result }
    {
        Extents {
            left: 0,
            width: i32::from(face.across(glyph)),
            bottom: i32::from(bounds.bottom()),
            top: i32::from(bounds.top()),
        }
    }

    // A box is a row of plain numbers, so contracts bound them.
    pub(crate) fn raised(self, by: i32) -> Extents
        requires own { Spans 32768 self }
        requires by { Within 40000000 by }
        ensures value { result ≡ raised by self }
        ensures spans { Spans 40032768 result }
    {
        Extents {
            bottom: self.bottom + by,
            top: self.top + by,
            ..self
        }
    }
}
