// What the type of a space says of its advance.
ghost use Rattle.std.specs.Prelude.{◌≡◌};
ghost use Rattle.placement.specs.Spaces.{kind};

#[derive(Clone, Copy, PartialEq, Eq, Debug)]
pub enum Space {
    // So many make an em.
    Fraction(u8),
    FourEighteenths,
    // As wide as the first digit of the face.
    Digit,
    // As wide as the full stop, or else the comma.
    Stop,
    // Half of what it has.
    Half,
    // What it has.
    Own,
}

impl From<u8> for Space {
    ghost from_gives = { λ number space. space ≡ kind number };

    fn from(number: u8) -> Space {
        match number {
            1..=6 | 16 => Space::Fraction(number),
            17 => Space::FourEighteenths,
            19 => Space::Digit,
            20 => Space::Stop,
            21 => Space::Half,
            _ => Space::Own,
        }
    }
}
