// Drawing: a line's items, written into lists that the caller lends, and what they keep.
#![tactic(auto)]

mod drawing;
mod item;
mod laws;
mod pen;
mod refusal;
mod room;

pub use drawing::draw_line;
pub use item::Item;
pub use laws::drawings_stand;
pub use pen::Pen;
pub use refusal::Refusal;
pub use room::Room;
