// Why a line is not drawn.
ghost use Rattle.std.specs.Prelude.{◌≡◌};
ghost use Rattle.drawings.specs.Refusals.{number_of};

#[derive(Clone, Copy, PartialEq, Eq, Debug)]
pub enum Refusal {
    // More signs than a line may have, or lists of different lengths.
    Length = 13,
    // A list of items or of pens that is shorter than the line.
    NoRoom = 15,
    // A glyph, an advance or an offset beyond what a line may hold.
    OutOfBounds = 16,
}

// The discriminants are the numbers by which callers know them. Each crate has refusals of its own, so each converts them.
impl From<Refusal> for u8 {
    ghost from_gives = { λ e n. n ≡ number_of e };

    fn from(refusal: Refusal) -> u8 {
        refusal as u8
    }
}
