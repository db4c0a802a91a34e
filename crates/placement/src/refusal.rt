// Why a step of a line is not made.
ghost use Rattle.std.specs.Prelude.{◌≡◌};
ghost use Rattle.placement.specs.Refusals.{number_of};

// The discriminants are the numbers by which callers know them. Each crate has refusals of its own, so each converts them.
#[derive(Clone, Copy, PartialEq, Eq, Debug)]
pub enum Refusal {
    // More signs than a line may have, or lists that are not as long as the line.
    Length = 13,
    // A glyph, an advance or an offset beyond what a line may hold.
    OutOfBounds = 16,
}

impl From<Refusal> for u8 {
    ghost from_gives = { λ e n. n ≡ number_of e };

    fn from(refusal: Refusal) -> u8 {
        refusal as u8
    }
}
