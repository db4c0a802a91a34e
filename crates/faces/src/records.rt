// The records that a face is made of: plain numbers, which the face checks.
ghost use Rattle.std.specs.Int.Signed.{mag};
ghost use Rattle.std.specs.Prelude.{◌^◌, ◌<◌};

pub mod keys;

#[repr(C)]
#[derive(Clone, Copy, PartialEq, Eq, Debug)]
pub struct GlyphRecord {
    pub glyph: u16,
    pub across: u16,
    // The size of the down advance, which is its negative.
    pub down: u16,
    // No `Option`, since C lends these rows: without a box its edges are not looked at.
    pub has_box: bool,
    pub left: i16,
    pub bottom: i16,
    pub right: i16,
    pub top: i16,
    // What the types say already, for definitions to rest on.
    ghost across_fits: { across < 2 ^ 16 },
    ghost down_fits: { down < 2 ^ 16 },
    ghost left_fits: { mag left < 2 ^ 15 },
    ghost bottom_fits: { mag bottom < 2 ^ 15 },
    ghost right_fits: { mag right < 2 ^ 15 },
    ghost top_fits: { mag top < 2 ^ 15 },
}

#[repr(C)]
#[derive(Clone, Copy, PartialEq, Eq, Debug)]
pub struct CodeRecord {
    pub code: u32,
    pub glyph: u16,
    ghost glyph_fits: { glyph < 2 ^ 16 },
}
