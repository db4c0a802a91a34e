// Lines of signs over any face: classed, mapped, spaced, and their marks placed. Numbers are widened by
// `as` or by `from`: the check proves that neither loses anything.
#![tactic(auto)]

mod base;
mod bounded;
mod classes;
mod classing;
mod components;
mod direction;
mod extents;
mod gap;
mod groups;
mod laws;
mod layout;
mod line;
mod mapping;
mod marks;
mod one_mark;
mod position;
mod positioning;
mod refusal;
mod scripts;
mod settings;
mod space;
mod spaces;
mod walk;
mod walking;

pub use bounded::all_bounded;
pub use direction::{Direction, UnknownDirection};
pub use extents::{Extents, PlacedMark};
pub use laws::{bounds_stand, lines_stand, placing_stands};
pub use line::steps::route_line;
pub use line::{Classed, MOST_SIGNS, Mapped, Placed, Refused, Spaced, Written};
pub use one_mark::position_one_mark;
pub use position::Position;
pub use positioning::next_base;
pub use refusal::Refusal;
pub use scripts::from_script;
pub use settings::Settings;
