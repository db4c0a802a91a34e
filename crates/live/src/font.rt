// The panel font, 1000 units to the em: a letter, a bar, a space. Both bars are one glyph. Each row spells all of its fields,
// as a constant can call no `default`, and a struct with ghost fields derives none.
use faces::{CodeRecord, GlyphRecord};

pub const EM: u32 = 1000;

pub const GLYPHS: [GlyphRecord; 3] = [
    GlyphRecord {
        glyph: 1,
        across: 600,
        down: 1000,
        has_box: true,
        left: 0,
        bottom: 0,
        right: 600,
        top: 700,
    },
    GlyphRecord {
        glyph: 2,
        across: 300,
        down: 1000,
        has_box: true,
        left: 0,
        bottom: 0,
        right: 300,
        top: 60,
    },
    GlyphRecord {
        glyph: 3,
        across: 250,
        down: 1000,
        has_box: false,
        left: 0,
        bottom: 0,
        right: 0,
        top: 0,
    },
];

pub const CODES: [CodeRecord; 4] = [
    CodeRecord {
        code: 0x20,
        glyph: 3,
    },
    CodeRecord {
        code: 0x41,
        glyph: 1,
    },
    CodeRecord {
        code: 0x305,
        glyph: 2,
    },
    CodeRecord {
        code: 0x332,
        glyph: 2,
    },
];
