// Looks: what is drawn of a whole line, and what every look keeps.
#![tactic(auto)]

mod laws;

pub use laws::{look_stands, worked_looks_stand, worked_signs_stand};
