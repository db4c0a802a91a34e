// A checked sign: its category means something, and so does its class if it is a mark. No `Model`: definitions
// speak of its row (`row_of`), as they do of rows that are lent.
ghost use Rattle.std.specs.Prelude.{◌≡◌, true};
ghost use Rattle.signs.specs.Props.{is_allowed};

use crate::row::SignRow;
use std::fmt;

pub mod classed;
pub mod made;
pub mod readings;

#[derive(Clone, Copy, PartialEq, Eq)]
pub struct Sign {
    row: SignRow,
    ghost allowed: { is_allowed row.unicode_props ≡ true },
}

// By hand: callers see a sign's own numbers, whatever holds them.
impl fmt::Debug for Sign {
    fn fmt<W: fmt::Write>(&self, f: &mut fmt::Formatter<W>) -> fmt::Result {
        f.debug_struct("Sign")
            .field("code", &self.row.code)
            .field("unicode_props", &self.row.unicode_props)
            .field("glyph_props", &self.row.glyph_props)
            .field("lig_props", &self.row.lig_props)
            .finish()
    }
}
