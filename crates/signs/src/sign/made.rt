// Making signs, of numbers and of rows.
ghost use Rattle.std.specs.Prelude.{◌≡◌};
ghost use Rattle.signs.specs.Refusals.{outcome};
ghost use Rattle.signs.specs.Rows.{read_row};
ghost use Rattle.signs.specs.Signs.{row_of, sign_outcome};

use crate::props::{has_category, has_class, is_allowed};
use crate::refusal::Refusal;
use crate::row::SignRow;
use crate::sign::Sign;

impl Sign {
    // The sign with these numbers, as callers have them before there is a row; refused where the code is no code point or the properties are those of no sign.
    pub fn new(
        code: u32,
        unicode_props: u16,
        glyph_props: u16,
        lig_props: u8,
    ) -> Result<Sign, Refusal>
        ensures { outcome row_of result ≡ sign_outcome code unicode_props glyph_props lig_props }
    {
        if code > 0x10FFFF {
            return Err(Refusal::CodeTooLarge);
        }
        if !has_category(unicode_props) {
            return Err(Refusal::UnknownCategory);
        }
        if !has_class(unicode_props) {
            return Err(Refusal::UnknownClass);
        }
        Ok(Sign {
            row: SignRow {
                code,
                unicode_props,
                glyph_props,
                lig_props,
            },
        })
    }

    // The sign of a row. A row that no sign may have is never refused: it is read as a space of type 18. So it is no
    // `From`, which would say that nothing is lost.
    pub fn read(row: SignRow) -> Sign
        ensures { row_of result ≡ read_row row }
    {
        if is_allowed(row.unicode_props) {
            return Sign { row };
        }
        Sign {
            row: SignRow {
                unicode_props: 4637,
                ..row
            },
        }
    }

    // The row of a sign.
    pub fn row(self) -> SignRow
        ensures { result ≡ row_of self }
    {
        self.row
    }
}
