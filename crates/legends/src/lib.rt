// Legends: the signs of a panel, patched one by one as they are reported, and drawn.
#![tactic(auto)]

mod call;
mod histories;
mod laws;
mod legend;
mod lists;
mod refusal;
mod span;

pub use call::Call;
pub use histories::look_after;
pub use laws::{histories_stand, worked_legends_stand};
pub use legend::Legend;
pub use lists::{Lists, View};
pub use refusal::Refusal;
