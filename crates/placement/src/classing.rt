// Classing: every nonspacing mark of a line gets the class by which it is placed.
ghost use Rattle.std.specs.Prelude.{◌≡◌, map};
ghost use Rattle.signs.specs.Reclassing.{reclassed};

use signs::{Sign, SignRow};

fn class_row(row: SignRow) -> SignRow
    ensures { result ≡ reclassed row }
{
    Sign::read(row).recategorized().row()
}

pub(crate) fn class_all(rows: &mut [SignRow])
    ensures { rows.new ≡ map reclassed rows.old }
{
    for row in rows.iter_mut() {
        *row = class_row(*row);
    }
}
