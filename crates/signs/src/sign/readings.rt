// What a sign says.
ghost use Rattle.std.specs.Prelude.{◌≡◌};
ghost use Rattle.signs.specs.Rows.{category, class, is_lig_base, is_ligated, is_ligature, is_mark, is_nonspacing_mark, is_space, lig_comp, lig_id, lig_num_comps, space_type};
ghost use Rattle.signs.specs.Signs.{row_of};

use crate::props::{category_of, class_of, is_mark_of};
use crate::sign::Sign;

impl Sign {
    // The number that the row has: of thirty names four would be used.
    pub fn category(self) -> u8
        ensures { result ≡ category (row_of self) }
    {
        category_of(self.row.unicode_props)
    }

    // Of a mark, its combining class.
    pub fn class(self) -> u8
        ensures { result ≡ class (row_of self) }
    {
        class_of(self.row.unicode_props)
    }

    // Of a space, which space it is.
    pub fn space_type(self) -> u8
        ensures { result ≡ space_type (row_of self) }
    {
        class_of(self.row.unicode_props)
    }

    pub fn is_mark(self) -> bool
        ensures { result ≡ is_mark (row_of self) }
    {
        is_mark_of(self.row.unicode_props)
    }

    pub fn is_nonspacing_mark(self) -> bool
        ensures { result ≡ is_nonspacing_mark (row_of self) }
    {
        self.category() == 12
    }

    pub fn is_space(self) -> bool
        ensures { result ≡ is_space (row_of self) }
    {
        self.category() == 29
    }

    // Whether the sign was formed as a ligature.
    pub fn is_ligated(self) -> bool
        ensures { result ≡ is_ligated (row_of self) }
    {
        self.row.glyph_props / 0x20 % 2 == 1
    }

    // Whether the font has the sign as a ligature.
    fn is_ligature(self) -> bool
        ensures { result ≡ is_ligature (row_of self) }
    {
        self.row.glyph_props / 0x04 % 2 == 1
    }

    // Whether the sign is its ligature, and not a mark on a component.
    fn is_lig_base(self) -> bool
        ensures { result ≡ is_lig_base (row_of self) }
    {
        self.row.lig_props / 0x10 % 2 == 1
    }

    // The ligature that the sign belongs to; 0 for none, as the row has it.
    pub fn lig_id(self) -> u8
        ensures { result ≡ lig_id (row_of self) }
    {
        self.row.lig_props >> 5
    }

    // The ligature component that a mark stands on; 0 for none, as the row has it.
    pub fn lig_comp(self) -> u8
        ensures { result ≡ lig_comp (row_of self) }
    {
        if self.is_lig_base() {
            0
        } else {
            self.row.lig_props % 16
        }
    }

    // How many components the sign has.
    pub fn lig_num_comps(self) -> u8
        ensures { result ≡ lig_num_comps (row_of self) }
    {
        if self.is_lig_base() && self.is_ligature() {
            self.row.lig_props % 16
        } else {
            1
        }
    }
}
