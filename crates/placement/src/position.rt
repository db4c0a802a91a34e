// How the pen moves at a sign, and where the sign is drawn from the pen.
ghost use Rattle.std.specs.Prelude.{◌≡◌};
ghost use Rattle.placement.specs.Spaces.{advance_along, with_advance};

// A row of numbers that the caller lends, so contracts say what it may hold (`Light`) and no ghost field.
#[repr(C)]
#[derive(Clone, Copy, Default, PartialEq, Eq, Debug)]
pub struct Position {
    pub x_advance: i32,
    pub y_advance: i32,
    pub x_offset: i32,
    pub y_offset: i32,
}

impl Position {
    // The advance along a line.
    pub(crate) fn advance(self, horizontal: bool) -> i32
        ensures { result ≡ advance_along horizontal self }
    {
        if horizontal {
            self.x_advance
        } else {
            self.y_advance
        }
    }

    // Another advance along a line.
    pub(crate) fn with_advance(self, horizontal: bool, advance: i32) -> Position
        ensures { result ≡ with_advance horizontal advance self }
    {
        if horizontal {
            Position {
                x_advance: advance,
                ..self
            }
        } else {
            Position {
                y_advance: advance,
                ..self
            }
        }
    }
}
