// A case as far as it is read: the face's records, the line and its signs.
use faces::{CodeRecord, GlyphRecord};
use placement::{Position, Settings};
use signs::SignRow;
use std::alloc::{AllocError, Global};

// A position that replaces what mapping puts at a place.
#[derive(Clone, Copy)]
pub struct Start {
    pub place: usize,
    pub position: Position,
}

#[derive(Drop)]
pub struct Case {
    pub label: String,
    // Whether the line is shown after each step.
    pub trace: bool,
    pub em: u32,
    pub glyphs: Vec<GlyphRecord>,
    pub codes: Vec<CodeRecord>,
    // As the input gives it: a case may ask what lists of another length give.
    pub len: usize,
    pub settings: Settings,
    pub rows: Vec<SignRow>,
    pub starts: Vec<Start>,
}

impl Case {
    // A case of which only the label is known.
    pub fn new(heap: Global, label: &str) -> Result<Case, AllocError> {
        Ok(Case {
            label: String::from_str(heap, label)?,
            trace: false,
            em: 0,
            glyphs: Vec::new(heap),
            codes: Vec::new(heap),
            len: 0,
            settings: Settings::default(),
            rows: Vec::new(heap),
            starts: Vec::new(heap),
        })
    }
}
