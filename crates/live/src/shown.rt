// What the panel shows of the incident, and its end drawn from blank.
use drawings::Item;
use incident::Story;

pub mod telling;

#[derive(Clone, Copy)]
pub struct Shown {
    pub story: Story,
    // The letter with the bar beneath.
    pub from_blank: [Item; 2],
}
