// The direction in which a line is written.
ghost use Rattle.std.specs.Prelude.{◌≡◌};
ghost use Rattle.placement.specs.Directions.{is_forward, is_horizontal, numbered};

#[derive(Clone, Copy, Default, PartialEq, Eq, Debug)]
pub enum Direction {
    #[default]
    LeftToRight,
    RightToLeft,
    TopToBottom,
    BottomToTop,
}

// A number that stands for no direction.
#[derive(Clone, Copy, PartialEq, Eq, Debug)]
pub struct UnknownDirection(pub u8);

impl TryFrom<u8> for Direction {
    type Error = UnknownDirection;

    ghost try_from_gives = { λ number r. r ≡ numbered number };

    fn try_from(number: u8) -> Result<Self, UnknownDirection> {
        match number {
            1 => Ok(Direction::LeftToRight),
            2 => Ok(Direction::RightToLeft),
            3 => Ok(Direction::TopToBottom),
            4 => Ok(Direction::BottomToTop),
            _ => Err(UnknownDirection(number)),
        }
    }
}

impl Direction {
    pub fn is_horizontal(self) -> bool
        ensures { result ≡ is_horizontal self }
    {
        match self {
            Direction::LeftToRight | Direction::RightToLeft => true,
            Direction::TopToBottom | Direction::BottomToTop => false,
        }
    }

    // Whether the pen draws the first sign first.
    pub fn is_forward(self) -> bool
        ensures { result ≡ is_forward self }
    {
        match self {
            Direction::LeftToRight | Direction::TopToBottom => true,
            Direction::RightToLeft | Direction::BottomToTop => false,
        }
    }
}
