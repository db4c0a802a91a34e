// The lists that a legend is lent: the signs put, the signs mapped, and their positions.
use placement::Position;
use signs::SignRow;

pub mod parts;

// For calls that may write in all three.
#[derive(Drop)]
pub struct Lists<'a> {
    pub signs: &'a mut [SignRow],
    pub mapped: &'a mut [SignRow],
    pub positions: &'a mut [Position],
}

// For calls that only look at them.
#[derive(Clone, Copy)]
pub struct View<'a> {
    pub signs: &'a [SignRow],
    pub mapped: &'a [SignRow],
    pub positions: &'a [Position],
}
