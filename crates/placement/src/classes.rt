// What a combining class says of a mark's place.
ghost use Rattle.std.specs.Prelude.{◌≡◌};
ghost use Rattle.placement.specs.Classes.{align, is_attached, way};

use crate::direction::Direction;

// The way in which the marks of a run go on from their base.
#[derive(Clone, Copy, PartialEq, Eq, Debug)]
pub enum Way {
    Above,
    Below,
}

// Where a mark stands across its box: at a side, with its middle on a side, or centred.
#[derive(Clone, Copy, PartialEq, Eq, Debug)]
pub enum Align {
    AtLeft,
    AtRight,
    OnLeft,
    OnRight,
    Centred,
}

pub(crate) fn way_of(class: u8) -> Option<Way>
    ensures { result ≡ way class }
{
    match class {
        200 | 202 | 218 | 220 | 222 | 233 => Some(Way::Below),
        214 | 216 | 228 | 230 | 232 | 234 => Some(Way::Above),
        _ => None,
    }
}

pub(crate) fn is_attached(class: u8) -> bool
    ensures { result ≡ is_attached class }
{
    matches!(class, 200 | 202 | 214 | 216)
}

pub(crate) fn align_of(class: u8, direction: Direction) -> Align
    ensures { result ≡ align class direction }
{
    match class {
        200 | 218 | 228 => Align::AtLeft,
        216 | 222 | 232 => Align::AtRight,
        233 | 234 => match direction {
            Direction::LeftToRight => Align::OnRight,
            Direction::RightToLeft => Align::OnLeft,
            _ => Align::Centred,
        },
        _ => Align::Centred,
    }
}
