// The laws of placement, for callers to rest on.
ghost use Rattle.placement.specs.Bounds.{BoundsStand};
ghost use Rattle.placement.specs.ByGroups.{LinesStand};
ghost use Rattle.placement.specs.Kept.{PlacedMarksKeep};
ghost use Rattle.placement.specs.Worked.{Worked};

use signs::signs_stand;

// A line has a cell for each sign, in order, and is placed group by group.
pub fn lines_stand()
    ensures { LinesStand }
{
    signs_stand();
}

// What the test of a line's bounds says, and that a route stays within them.
pub fn bounds_stand()
    ensures { BoundsStand }
{}

// What a placed mark keeps by any box of a run, and worked placements.
pub fn placing_stands()
    ensures kept { PlacedMarksKeep }
    ensures worked { Worked }
{}
