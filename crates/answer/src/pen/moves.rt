// The pen goes from sign to sign by their advances; each lies at the pen and its offsets.
ghost use Rattle.std.specs.Prelude.{◌≡◌, ℕ, ◌+◌, ◌≤◌};
ghost use Rattle.answer.specs.Pens.{Near, item_at, moved};

use crate::pen::{Item, Pen};
use placement::Position;
use signs::SignRow;

impl Pen {
    // What is drawn of the sign at a place.
    pub(crate) fn item(self, place: usize, row: SignRow, position: Position) -> Item
        requires { Near 256 self }
        ensures { result ≡ item_at self place row position }
    {
        Item {
            place,
            glyph: row.code,
            x: self.x + position.x_offset as i64,
            y: self.y + position.y_offset as i64,
        }
    }

    // The pen after the sign.
    pub(crate) fn after(self, position: Position) -> Pen
        requires { Near 256 self }
        ensures value { result ≡ moved self position }
        ensures near { (n : ℕ) → Near n self → Near (n + 1) result }
    {
        Pen {
            x: self.x + position.x_advance as i64,
            y: self.y + position.y_advance as i64,
        }
    }
}
