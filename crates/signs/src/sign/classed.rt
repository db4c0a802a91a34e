// The class by which a sign is placed.
ghost use Rattle.std.specs.Prelude.{◌≡◌};
ghost use Rattle.signs.specs.Reclassing.{recategorized_row};
ghost use Rattle.signs.specs.Signs.{row_of};

use crate::classes::recategorize_combining_class;
use crate::props::with_class;
use crate::row::SignRow;
use crate::sign::Sign;

impl Sign {
    // The sign with the class by which it is placed; only a nonspacing mark changes.
    pub fn recategorized(self) -> Sign
        ensures { row_of result ≡ recategorized_row (row_of self) }
    {
        if !self.is_nonspacing_mark() {
            return self;
        }
        let class = recategorize_combining_class(self.row.code, self.class());
        Sign {
            row: SignRow {
                unicode_props: with_class(self.row.unicode_props, class),
                ..self.row
            },
        }
    }
}
