// The laws of looks, for callers to rest on.
ghost use Rattle.looks.specs.Laws.{LooksStand};
ghost use Rattle.looks.specs.Worked.{WorkedLooks};
ghost use Rattle.looks.specs.WorkedSigns.{WorkedSigns};

use placement::{lines_stand, placing_stands};
use signs::signs_stand;

// What every look keeps: each sign is shown, marks stand clear and centred ones in the middle.
pub fn look_stands()
    ensures { LooksStand }
{
    signs_stand();
    lines_stand();
    placing_stands();
}

// Worked looks.
pub fn worked_looks_stand()
    ensures { WorkedLooks }
{}

// The worked signs of the panel, in one list.
pub fn worked_signs_stand()
    ensures { WorkedSigns }
{}
