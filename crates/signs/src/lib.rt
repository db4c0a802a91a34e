// Signs: the numbers of one sign of a line, checked signs, what they say, and the classes of marks.
#![tactic(auto)]

mod classes;
mod laws;
mod props;
mod refusal;
mod row;
mod sign;

pub use classes::recategorize_combining_class;
pub use laws::signs_stand;
pub use refusal::Refusal;
pub use row::SignRow;
pub use sign::Sign;
