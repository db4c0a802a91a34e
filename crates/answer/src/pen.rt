// The pen that draws a line, and what is drawn of a sign.
use std::fmt;

pub mod moves;

// Sums of 64 bits, as start positions may lead beyond what a drawing of 32 bits holds. A number type for both drawings
// would be a trait of sums with their limits, for two uses.
#[derive(Clone, Copy, Default)]
pub struct Pen {
    pub x: i64,
    pub y: i64,
}

// A glyph, the place of its sign in the line, and where it lies.
#[derive(Clone, Copy)]
pub struct Item {
    pub place: usize,
    pub glyph: u32,
    pub x: i64,
    pub y: i64,
}

impl fmt::Display for Pen {
    fn fmt<W: fmt::Write>(&self, f: &mut fmt::Formatter<W>) -> fmt::Result {
        write!(f, "{},{}", self.x, self.y)
    }
}

impl fmt::Display for Item {
    fn fmt<W: fmt::Write>(&self, f: &mut fmt::Formatter<W>) -> fmt::Result {
        write!(f, "{},{},{},{}", self.place, self.glyph, self.x, self.y)
    }
}
