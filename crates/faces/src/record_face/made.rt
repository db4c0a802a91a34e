// Making a record face.
ghost use Rattle.std.specs.Prelude.{◌≡◌};
ghost use Rattle.faces.specs.Recorded.{recorded_meaning};
ghost use Rattle.faces.specs.Records.{record_outcome};
ghost use Rattle.faces.specs.Refusals.{outcome};

use crate::keyed::rising::Rising;
use crate::record_face::RecordFace;
use crate::records::{CodeRecord, GlyphRecord};
use crate::refusal::Refusal;

impl<'a> RecordFace<'a> {
    // The face of these records; refused where the em, the order, an edge or a code is not as it must be.
    pub fn new(
        em: u32,
        glyphs: &'a [GlyphRecord],
        codes: &'a [CodeRecord],
    ) -> Result<RecordFace<'a>, Refusal>
        ensures { outcome recorded_meaning result ≡ record_outcome em glyphs.now codes.now }
    {
        if !(16..=16384).contains(&em) {
            return Err(Refusal::EmOutsideLimits);
        }
        let glyphs = Rising::new(glyphs).ok_or(Refusal::NotRising)?;
        let codes = Rising::new(codes).ok_or(Refusal::NotRising)?;
        if !glyphs.all_sound() {
            return Err(Refusal::CrossedEdges);
        }
        if !codes.all_sound() {
            return Err(Refusal::BadCode);
        }
        Ok(RecordFace {
            em: em as u16,
            glyphs,
            codes,
        })
    }
}
