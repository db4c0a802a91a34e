// What is drawn of a sign: the glyph of its place, and where on the panel the glyph goes.
#[repr(C)]
#[derive(Clone, Copy, PartialEq, Eq, Debug, Default)]
pub struct Item {
    pub place: usize,
    pub glyph: u32,
    pub x: i32,
    pub y: i32,
}
