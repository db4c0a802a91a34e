// The base of a group: the sign that its marks go by.
ghost use Rattle.placement.specs.Room.{Spans};

use crate::extents::Extents;
use signs::Sign;

#[derive(Clone, Copy)]
pub struct Base {
    pub(crate) sign: Sign,
    // Its box, as wide as its advance across and moved up by its offset.
    pub(crate) extents: Extents,
    ghost spans: { Spans 40032768 extents },
}
