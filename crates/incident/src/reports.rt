// The signs that are reported of the gate. The two bars are two codes; in the panel font they are one glyph. Zeros are
// written out, as a constant can call no `default`.
use signs::SignRow;

// U+0041, an uppercase letter.
pub const LETTER: SignRow = SignRow {
    code: 0x41,
    unicode_props: 9,
    glyph_props: 0,
    lig_props: 0,
};

// Locked: U+0305, a nonspacing mark of class 230, above.
pub const BAR_OVER: SignRow = SignRow {
    code: 0x305,
    unicode_props: 58892,
    glyph_props: 0,
    lig_props: 0,
};

// Closed: U+0332, a nonspacing mark of class 220, below.
pub const BAR_BENEATH: SignRow = SignRow {
    code: 0x332,
    unicode_props: 56332,
    glyph_props: 0,
    lig_props: 0,
};
