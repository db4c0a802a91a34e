// Room to draw a line in, which the caller lends: the items, and the pens to work with.
ghost use Rattle.std.specs.Prelude.{◌≡◌, ◌≤◌, true, length};
ghost use Rattle.drawings.specs.DrawAnswers.{has_room};

use crate::item::Item;
use crate::pen::Pen;

#[derive(Drop)]
pub struct Room<'a> {
    pub items: &'a mut [Item],
    pub pens: &'a mut [Pen],
}

impl Room<'_> {
    // Whether there is an item and a pen for each of len signs.
    pub fn holds(&self, len: usize) -> bool
        ensures value { result ≡ has_room len (length self.now.items.now) (length self.now.pens.now) }
        ensures lengths { result ≡ true → (len ≤ length self.now.items.now) × (len ≤ length self.now.pens.now) }
    {
        len <= self.items.len() && len <= self.pens.len()
    }
}
