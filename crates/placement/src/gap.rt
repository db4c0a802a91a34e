// The gap between a mark and what it sits on.
ghost use Rattle.std.specs.Prelude.{◌≡◌, ◌≤◌};
ghost use Rattle.placement.specs.OneMark.{gap_of};
ghost use Rattle.placement.specs.Placing.{gap_before};

use crate::classes::is_attached;
use faces::Face;

#[derive(Clone, Copy)]
pub struct Gap {
    pub(crate) units: u16,
    ghost small: { units ≤ 1024 },
}

impl Gap {
    // The gap of a face: a part of its em.
    pub(crate) fn of<F: Face>(face: &F) -> Gap
        ensures { result.units ≡ gap_of (F.meaning face.now) }
    {
        Gap {
            units: face.em() / 16,
        }
    }

    // The gap before a mark of a class.
    pub(crate) fn before(self, class: u8) -> Gap
        ensures { result.units ≡ gap_before self.units class }
    {
        if is_attached(class) {
            Gap { units: 0 }
        } else {
            self
        }
    }
}
