// Where the pen stands before it draws a sign.
ghost use Rattle.std.specs.Prelude.{◌≡◌};
ghost use Rattle.drawings.specs.Pens.{Near, item_at, move_pen};
ghost use Rattle.placement.specs.Room.{Light};

use crate::item::Item;
use placement::Position;
use signs::SignRow;

#[repr(C)]
#[derive(Clone, Copy, PartialEq, Eq, Debug, Default)]
pub struct Pen {
    pub x: i32,
    pub y: i32,
}

impl Pen {
    // The pen after a sign.
    pub(crate) fn after(self, position: Position) -> Pen
        requires { (Near 256 self) × (Light position) }
        ensures { result ≡ move_pen self position }
    {
        Pen {
            x: self.x + position.x_advance,
            y: self.y + position.y_advance,
        }
    }

    // What is drawn of the sign at a place.
    pub(crate) fn item(self, place: usize, row: SignRow, position: Position) -> Item
        requires { (Near 256 self) × (Light position) }
        ensures { result ≡ item_at self place row position }
    {
        Item {
            place,
            glyph: row.code,
            x: self.x + position.x_offset,
            y: self.y + position.y_offset,
        }
    }
}
