// Why a call on a legend is not carried out.
ghost use Rattle.std.specs.Prelude.{◌≡◌};
ghost use Rattle.legends.specs.Refusals.{from_drawing, from_placement, number_of};

#[derive(Clone, Copy, PartialEq, Eq, Debug)]
pub enum Refusal {
    // More signs than a legend may have, or lists that are not as long as the legend.
    Length = 13,
    // A place that the legend does not have.
    NoPlace = 14,
    // A drawing or pen list that is shorter than the legend.
    NoRoom = 15,
    // A glyph, an advance or an offset in the lists beyond what a line may hold.
    OutOfBounds = 16,
}

// The discriminants are the numbers by which callers know them. Each crate has refusals of its own, so each converts them.
impl From<Refusal> for u8 {
    ghost from_gives = { λ e n. n ≡ number_of e };

    fn from(refusal: Refusal) -> u8 {
        refusal as u8
    }
}

impl From<placement::Refusal> for Refusal {
    ghost from_gives = { λ e r. r ≡ from_placement e };

    fn from(refusal: placement::Refusal) -> Refusal {
        match refusal {
            placement::Refusal::Length => Refusal::Length,
            placement::Refusal::OutOfBounds => Refusal::OutOfBounds,
        }
    }
}

impl From<drawings::Refusal> for Refusal {
    ghost from_gives = { λ e r. r ≡ from_drawing e };

    fn from(refusal: drawings::Refusal) -> Refusal {
        match refusal {
            drawings::Refusal::Length => Refusal::Length,
            drawings::Refusal::NoRoom => Refusal::NoRoom,
            drawings::Refusal::OutOfBounds => Refusal::OutOfBounds,
        }
    }
}
