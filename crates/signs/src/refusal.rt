// Why a sign is not made.
ghost use Rattle.std.specs.Prelude.{◌≡◌};
ghost use Rattle.signs.specs.Refusals.{number_of};

// The discriminants are the numbers by which callers know them. Each crate has refusals of its own, so each converts them.
#[derive(Clone, Copy, PartialEq, Eq, Debug)]
pub enum Refusal {
    CodeTooLarge = 10,
    UnknownCategory = 11,
    UnknownClass = 12,
}

impl From<Refusal> for u8 {
    ghost from_gives = { λ e n. n ≡ number_of e };

    fn from(refusal: Refusal) -> u8 {
        refusal as u8
    }
}
