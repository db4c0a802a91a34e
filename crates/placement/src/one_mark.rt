// One mark on one base, over any face.
ghost use Rattle.std.specs.Prelude.{◌≡◌};
ghost use Rattle.placement.specs.OneMark.{OneKept, base_of, one_placed};
ghost use Rattle.placement.specs.Room.{AllRoom};

use crate::direction::Direction;
use crate::extents::{Extents, PlacedMark};
use crate::gap::Gap;
use crate::marks::Unplaced;
use faces::Face;

// The box of a base: as wide as its advance, as high as its own box.
fn base_extents<F: Face>(face: &F, base: u16) -> Option<Extents>
    ensures value { result ≡ base_of (F.meaning face.now) base }
    ensures room { AllRoom result }
{
    let bounds = face.bounds(base)?;
    Some(Extents::of_base(face, base, bounds))
}

// Where a mark of a class goes on a base that has no other mark, from the base's origin. None where either has no box,
// and at class 0, whose marks stay where the line has them.
pub fn position_one_mark<F: Face>(
    face: &F,
    base: u16,
    mark: u16,
    class: u8,
    direction: Direction,
) -> Option<PlacedMark>
    ensures value { result ≡ one_placed (F.meaning face.now) base mark class direction }
    ensures kept { OneKept (F.meaning face.now) base mark class direction result }
{
    if class == 0 {
        return None;
    }
    let run = base_extents(face, base)?;
    let mark = face.bounds(mark)?;
    Some(Unplaced { run, mark }.place(Gap::of(face), class, direction))
}
