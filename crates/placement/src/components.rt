// The components of a ligature, and the share of its width that each has.
ghost use Rattle.std.specs.Prelude.{◌≡◌, ◌<◌, ◌≤◌};
ghost use Rattle.placement.specs.Components.{component, leftward, share};
ghost use Rattle.signs.specs.Rows.{lig_num_comps};
ghost use Rattle.signs.specs.Signs.{row_of};

use crate::base::Base;
use crate::extents::Extents;
use signs::Sign;

// How many components lie to the left of one. Count and number are those of rows and walks, so contracts bound them.
fn components_before(ltr: bool, count: u8, number: u8) -> i32
    requires count { count ≤ 15 }
    requires component { number ≤ 15 }
    ensures { result ≡ leftward ltr count number }
{
    if ltr {
        number as i32 - 1
    } else {
        count as i32 - number as i32
    }
}

impl Base {
    // The component that a mark belongs to, counted from 1; 0 for none, as a walk holds it.
    pub(crate) fn component_of(self, mark: Sign) -> u8
        ensures value { result ≡ component (row_of self.sign) (row_of mark) }
        ensures small { result ≤ 15 }
    {
        let count = self.sign.lig_num_comps();
        if count <= 1 {
            return 0;
        }
        let named = mark.lig_comp();
        let id = self.sign.lig_id();
        if id == 0 || id != mark.lig_id() || named > count {
            count
        } else {
            named
        }
    }

    // The box of a component: its share of the box of the base.
    pub(crate) fn share_of(self, ltr: bool, number: u8) -> Extents
        requires several { 1 < lig_num_comps (row_of self.sign) }
        requires component { number ≤ 15 }
        ensures { result ≡ share ltr (lig_num_comps (row_of self.sign)) number self.extents }
    {
        let count = self.sign.lig_num_comps();
        let before = components_before(ltr, count, number);
        let count = count as i32;
        Extents {
            left: before * self.extents.width / count,
            width: self.extents.width / count,
            ..self.extents
        }
    }
}
