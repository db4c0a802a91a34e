// The five questions to a face. No question changes it.
ghost use Rattle.std.specs.Prelude.{◌≡◌};
ghost use Rattle.faces.specs.Boxes.{box_of};
ghost use Rattle.faces.specs.Meaning.{FaceMeaning, Keeps};

use crate::bounds::Bounds;

pub trait Face {
    // Its answers, as one value.
    ghost meaning: { Self → FaceMeaning };

    // Every face shows that its answers keep the limits.
    ghost keeps: { (f : Self) → Keeps (meaning f) };

    // The units of the em square.
    fn em(&self) -> u16
        ensures { result ≡ (meaning self.now).em };

    // The glyph of a code point, if it has one.
    fn glyph(&self, code: u32) -> Option<u16>
        ensures { result ≡ (meaning self.now).glyph code };

    // The advance of a glyph in a horizontal line.
    fn across(&self, glyph: u16) -> u16
        ensures { result ≡ (meaning self.now).across glyph };

    // The advance of a glyph in a vertical line: 0 or below.
    fn down(&self, glyph: u16) -> i32
        ensures { result ≡ (meaning self.now).down glyph };

    // The box of a glyph, if it has one.
    fn bounds(&self, glyph: u16) -> Option<Bounds>
        ensures { box_of result ≡ (meaning self.now).bounds glyph };
}
