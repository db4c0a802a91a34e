// Whether lists fit a legend, and the copy of a part.
ghost use Rattle.std.specs.Prelude.{◌≡◌, ◌≤◌, true, ◌++◌, length, take, drop};
ghost use Rattle.std.specs.List.{between};
ghost use Rattle.legends.specs.Fits.{Fit, fit};
ghost use Rattle.legends.specs.Lent.{FitsLists, fits_lists};

use crate::lists::{Lists, View};
use placement::MOST_SIGNS;
use signs::SignRow;

impl Lists<'_> {
    pub fn view(&self) -> View<'_>
        ensures signs { result.signs.now ≡ self.now.signs.now }
        ensures mapped { result.mapped.now ≡ self.now.mapped.now }
        ensures positions { result.positions.now ≡ self.now.positions.now }
    {
        View {
            signs: self.signs,
            mapped: self.mapped,
            positions: self.positions,
        }
    }

    // Whether they are those of a legend of len signs.
    pub(crate) fn fit(&self, len: usize) -> bool
        ensures value { result ≡ fits_lists len self.now }
        ensures lengths { result ≡ true → FitsLists len self.now }
    {
        self.view().fit(len)
    }
}

impl View<'_> {
    // Whether they are those of a legend of len signs.
    pub(crate) fn fit(&self, len: usize) -> bool
        ensures value { result ≡ fit len (length self.now.signs.now) (length self.now.mapped.now) (length self.now.positions.now) }
        ensures lengths { result ≡ true → Fit len (length self.now.signs.now) (length self.now.mapped.now) (length self.now.positions.now) }
    {
        len <= MOST_SIGNS
            && self.signs.len() == len
            && self.mapped.len() == len
            && self.positions.len() == len
    }
}

// Copies a part of one list into the same part of another.
// A function of slices: where a field's part is copied to another field, the check forgets what the field holds.
pub(crate) fn copy_part(from: &[SignRow], to: &mut [SignRow], first: usize, end: usize)
    requires { (first ≤ end) × ((end ≤ length from.now) × (end ≤ length to.old)) }
    ensures { to.new ≡ take first to.old ++ (between first end from.now ++ drop end to.old) }
{
    to[first..end].copy_from_slice(&from[first..end]);
}
