// Refusals and edges of faces and of the place of one mark.
use crate::cases::boxed;
use faces::{Bounds, CodeRecord, Face, GlyphRecord, RecordFace};
use placement::{Direction, position_one_mark};
use std::test::Fail;

// The number of a refusal, 0 where there is none: the tests keep the values that they had.
pub fn refusal_number<T: Drop, E: Into<u8>>(made: Result<T, E>) -> u8 {
    made.map_or_else(|refusal| refusal.into(), |_| 0)
}

fn face_number<'a>(em: u32, glyphs: &'a [GlyphRecord], codes: &'a [CodeRecord]) -> u8 {
    refusal_number(RecordFace::new(em, glyphs, codes))
}

fn box_number(left: i16, bottom: i16, right: i16, top: i16) -> u8 {
    refusal_number(Bounds::new(left, bottom, right, top))
}

fn bare(glyph: u16) -> GlyphRecord {
    GlyphRecord {
        glyph,
        across: 9,
        down: 8,
        has_box: false,
        left: 1,
        bottom: 1,
        right: 0,
        top: 0,
    }
}

#[test]
fn boxes(rt: HostRuntime) {
    assert_eq!(rt; box_number(0, 0, 0, 0), 0);
    assert_eq!(rt; box_number(-32768, -32768, 32767, 32767), 0);
    assert_eq!(rt; box_number(1, 0, 0, 5), 3);
    assert_eq!(rt; box_number(0, 6, 5, 5), 3);
}

#[test]
fn ems(rt: HostRuntime) {
    assert_eq!(rt; face_number(15, &[], &[]), 1);
    assert_eq!(rt; face_number(16, &[], &[]), 0);
    assert_eq!(rt; face_number(16384, &[], &[]), 0);
    assert_eq!(rt; face_number(16385, &[], &[]), 1);
    assert_eq!(rt; face_number(0, &[], &[]), 1);
    assert_eq!(rt; face_number(66536, &[], &[]), 1);
    assert_eq!(rt; face_number(4294967295, &[], &[]), 1);
}

#[test]
fn orders(rt: HostRuntime) {
    assert_eq!(rt; face_number(1000, &[bare(0), bare(1), bare(65535)], &[]), 0);
    assert_eq!(rt; face_number(1000, &[bare(4), bare(4)], &[]), 2);
    assert_eq!(rt; face_number(1000, &[bare(4), bare(3)], &[]), 2);
    let same = [
        CodeRecord { code: 65, glyph: 1 },
        CodeRecord { code: 65, glyph: 2 },
    ];
    assert_eq!(rt; face_number(1000, &[], &same), 2);
}

#[test]
fn codes(rt: HostRuntime) {
    assert_eq!(rt;
        face_number(
            1000,
            &[],
            &[CodeRecord {
                code: 0x10FFFF,
                glyph: 65535,
            }],
        ),
        0
    );
    assert_eq!(rt;
        face_number(
            1000,
            &[],
            &[CodeRecord {
                code: 0x110000,
                glyph: 1,
            }],
        ),
        4
    );
    assert_eq!(rt;
        face_number(1000, &[], &[CodeRecord { code: 65, glyph: 0 }]),
        4
    );
}

// Of several faults the smallest number is given, over both lists.
#[test]
fn smallest_first(rt: HostRuntime) {
    let crossed = boxed(7, 500, [1, 0, 0, 0]);
    let none = CodeRecord { code: 65, glyph: 0 };
    assert_eq!(rt; face_number(15, &[crossed, crossed], &[none, none]), 1);
    assert_eq!(rt; face_number(1000, &[crossed], &[none, none]), 2);
    assert_eq!(rt; face_number(1000, &[crossed], &[none]), 3);
    assert_eq!(rt; face_number(1000, &[bare(7)], &[none]), 4);
}

#[test]
fn answers(rt: HostRuntime) -> Result<(), Fail> {
    let glyphs = [
        boxed(1, 600, [0, 0, 600, 700]),
        bare(3),
        boxed(9, 65535, [-5, -6, -5, 7]),
    ];
    let codes = [
        CodeRecord { code: 32, glyph: 3 },
        CodeRecord { code: 65, glyph: 1 },
    ];
    let face = RecordFace::new(1000, &glyphs, &codes).map_err(|_| Fail::new("refused"))?;
    assert_eq!(rt; face.em(), 1000);
    assert_eq!(rt; face.glyph(32), Some(3));
    assert_eq!(rt; face.glyph(65), Some(1));
    assert_eq!(rt; face.glyph(64), None);
    assert_eq!(rt; face.glyph(65536 + 65), None);
    assert_eq!(rt; face.across(9), 65535);
    assert_eq!(rt; face.across(2), 0);
    assert_eq!(rt; face.down(1), -1000);
    assert_eq!(rt; face.down(65535), 0);
    assert!(rt; face.bounds(3).is_none());
    assert!(rt; face.bounds(8).is_none());
    let narrow = face.bounds(9).ok_or_else(|| Fail::new("no box"))?;
    assert_eq!(rt; narrow.left(), -5);
    assert_eq!(rt; narrow.bottom(), -6);
    assert_eq!(rt; narrow.right(), -5);
    assert_eq!(rt; narrow.top(), 7);
    Ok(())
}

#[test]
fn unplaced(rt: HostRuntime) -> Result<(), Fail> {
    let glyphs = [
        boxed(1, 600, [0, 0, 600, 700]),
        boxed(2, 300, [0, 0, 300, 60]),
        bare(3),
    ];
    let face = RecordFace::new(1000, &glyphs, &[]).map_err(|_| Fail::new("refused"))?;
    let across = Direction::LeftToRight;
    assert!(rt; position_one_mark(&face, 1, 2, 220, across).is_some());
    assert!(rt; position_one_mark(&face, 1, 2, 255, across).is_some());
    assert!(rt; position_one_mark(&face, 1, 3, 220, across).is_none());
    assert!(rt; position_one_mark(&face, 3, 2, 220, across).is_none());
    assert!(rt; position_one_mark(&face, 65535, 2, 220, across).is_none());
    assert!(rt; position_one_mark(&face, 1, 2, 0, across).is_none());
    Ok(())
}
