// What a record face answers: each list is searched by halving.
ghost use Rattle.faces.specs.RecordKeeps.{recorded_keeps};
ghost use Rattle.faces.specs.Recorded.{recorded_meaning};

use crate::bounds::Bounds;
use crate::face::Face;
use crate::record_face::RecordFace;

impl<'a> Face for RecordFace<'a> {
    ghost meaning = { recorded_meaning };

    ghost keeps = { recorded_keeps };

    fn em(&self) -> u16 {
        self.em
    }

    fn glyph(&self, code: u32) -> Option<u16> {
        self.codes.find(code).map(|record| record.glyph)
    }

    fn across(&self, glyph: u16) -> u16 {
        self.glyphs
            .find(glyph as u32)
            .map_or(0, |record| record.across)
    }

    fn down(&self, glyph: u16) -> i32 {
        self.glyphs
            .find(glyph as u32)
            .map_or(0, |record| -(record.down as i32))
    }

    fn bounds(&self, glyph: u16) -> Option<Bounds> {
        let record = self.glyphs.find(glyph as u32)?;
        if !record.has_box {
            return None;
        }
        Bounds::new(record.left, record.bottom, record.right, record.top).ok()
    }
}
