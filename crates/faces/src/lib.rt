// Faces: what a font answers about codes and glyphs, and the face that is two lists of records.
#![tactic(auto)]

mod bounds;
mod face;
mod keyed;
mod laws;
mod record_face;
mod records;
mod refusal;

pub use bounds::Bounds;
pub use face::Face;
pub use laws::records_stand;
pub use record_face::RecordFace;
pub use records::{CodeRecord, GlyphRecord};
pub use refusal::Refusal;
