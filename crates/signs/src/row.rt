// A sign as it lies in the list of a line: plain numbers, which reading checks.
#[repr(C)]
#[derive(Clone, Copy, PartialEq, Eq, Debug, Default)]
pub struct SignRow {
    // A code point and, once the line is mapped, the number of a glyph.
    pub code: u32,
    // The category in the low five bits; in the high byte the class of a mark or the type of a space.
    pub unicode_props: u16,
    pub glyph_props: u16,
    // The ligature in the high three bits; below them whether this is its base, and a component or their count.
    pub lig_props: u8,
}
