// The place of one mark by the box of its run.
ghost use Rattle.std.specs.Prelude.{◌≡◌, Some};
ghost use Rattle.faces.specs.Boxes.{edges_of};
ghost use Rattle.placement.specs.Placing.{half_sunk, left_edge, placed, unlifted, width_of, x_of, y_of};
ghost use Rattle.placement.specs.declared.classes.Way.TheVariants.{Above, Below};
ghost use Rattle.placement.specs.Room.{Room, Within};

use crate::classes::{Align, Way, align_of, way_of};
use crate::direction::Direction;
use crate::extents::{Extents, PlacedMark};
use crate::gap::Gap;
use faces::Bounds;

// A mark below is never lifted.
fn never_lifted(y: i32) -> i32
    ensures { result ≡ unlifted y }
{
    y.min(0)
}

// A mark above that would sink goes only half of that way.
fn half_sinking(y: i32) -> i32
    requires { Within 60033792 y }
    ensures { result ≡ half_sunk y }
{
    if y > 0 { y } else { y + -y / 2 }
}

// A mark that has yet to be placed by the box of its run.
#[derive(Clone, Copy)]
pub struct Unplaced {
    pub(crate) run: Extents,
    pub(crate) mark: Bounds,
    ghost room: { Room run },
}

impl Unplaced {
    fn width(self) -> i32
        ensures value { result ≡ width_of (edges_of self.mark) }
        ensures near { Within 65535 result }
    {
        self.mark.right() as i32 - self.mark.left() as i32
    }

    // Where its left edge goes.
    fn left_edge(self, align: Align) -> i32
        ensures value { result ≡ left_edge self.run (width_of (edges_of self.mark)) align }
        ensures near { Within 1131070 result }
    {
        let run = self.run;
        let width = self.width();
        match align {
            Align::AtLeft => run.left,
            Align::AtRight => run.left + run.width - width,
            Align::OnLeft => run.left - width / 2,
            Align::OnRight => run.left + run.width - width / 2,
            Align::Centred => run.left + (run.width - width) / 2,
        }
    }

    // How far it goes to the right.
    fn x_offset(self, align: Align) -> i32
        ensures { result ≡ x_of self.run (edges_of self.mark) align }
    {
        self.left_edge(align) - self.mark.left() as i32
    }

    // How far it goes up below its base.
    fn below_offset(self, gap: Gap) -> i32
        ensures value { result ≡ y_of self.run (edges_of self.mark) gap.units (Some Below) }
        ensures near { Within 60033792 result }
    {
        never_lifted(self.run.bottom - gap.units as i32 - self.mark.top() as i32)
    }

    // How far it goes up above its base.
    fn above_offset(self, gap: Gap) -> i32
        ensures value { result ≡ y_of self.run (edges_of self.mark) gap.units (Some Above) }
        ensures near { Within 60033792 result }
    {
        half_sinking(self.run.top + gap.units as i32 - self.mark.bottom() as i32)
    }

    // Where it goes by its class, and the box of its run with the mark in it.
    pub(crate) fn place(self, gap: Gap, class: u8, direction: Direction) -> PlacedMark
        ensures { result ≡ placed self.run (edges_of self.mark) gap.units class direction }
    {
        let run = self.run;
        let x = self.x_offset(align_of(class, direction));
        let gap = gap.before(class);
        match way_of(class) {
            Some(Way::Below) => {
                let y = self.below_offset(gap);
                let bottom = y + self.mark.bottom() as i32;
                PlacedMark {
                    x,
                    y,
                    run: Extents { bottom, ..run },
                }
            }
            Some(Way::Above) => {
                let y = self.above_offset(gap);
                let top = y + self.mark.top() as i32;
                PlacedMark {
                    x,
                    y,
                    run: Extents { top, ..run },
                }
            }
            None => PlacedMark { x, y: 0, run },
        }
    }
}
