// The incident of one gate, told on a live legend: its letter is put, it is reported locked, then closed.
#![tactic(auto)]

mod blank;
mod reports;
mod story;

pub use blank::from_blank;
pub use reports::{BAR_BENEATH, BAR_OVER, LETTER};
pub use story::Story;
pub use story::telling::tell;
