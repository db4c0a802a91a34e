// Making a box, and its edges.
ghost use Rattle.std.specs.Prelude.{◌≡◌};
ghost use Rattle.faces.specs.Boxes.{edges_of, box_outcome};
ghost use Rattle.faces.specs.Meaning.{edges};
ghost use Rattle.faces.specs.Refusals.{outcome};

use crate::bounds::Bounds;
use crate::refusal::Refusal;

impl Bounds {
    // The box with these edges; refused where they are crossed.
    pub fn new(left: i16, bottom: i16, right: i16, top: i16) -> Result<Bounds, Refusal>
        ensures { outcome edges_of result ≡ box_outcome (edges left bottom right top) }
    {
        if left > right || bottom > top {
            return Err(Refusal::CrossedEdges);
        }
        Ok(Bounds {
            left,
            bottom,
            right,
            top,
        })
    }

    pub fn left(self) -> i16
        ensures { result ≡ (edges_of self).left }
    {
        self.left
    }

    pub fn bottom(self) -> i16
        ensures { result ≡ (edges_of self).bottom }
    {
        self.bottom
    }

    pub fn right(self) -> i16
        ensures { result ≡ (edges_of self).right }
    {
        self.right
    }

    pub fn top(self) -> i16
        ensures { result ≡ (edges_of self).top }
    {
        self.top
    }
}
