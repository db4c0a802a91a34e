// What a keeper sees after each report: the two items of the gate's letter and of its bar.
use drawings::Item;

pub mod telling;

#[derive(Clone, Copy)]
pub struct Story {
    // The legend as it was made.
    pub blank: [Item; 2],
    pub letter: [Item; 2],
    pub locked: [Item; 2],
    pub closed: [Item; 2],
    // The legend turned to run from right to left.
    pub turned: [Item; 2],
}
