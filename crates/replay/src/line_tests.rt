// Refusals and edges of signs and of the steps of a line.
use crate::cases::boxed;
use crate::tests::refusal_number;
use faces::{GlyphRecord, RecordFace};
use placement::{Position, Settings, Written, route_line};
use signs::{Sign, SignRow};
use std::test::Fail;

fn sign_number(code: u32, unicode_props: u16) -> u8 {
    refusal_number(Sign::new(code, unicode_props, 0, 0))
}

fn row(code: u32, unicode_props: u16) -> SignRow {
    SignRow {
        code,
        unicode_props,
        ..SignRow::default()
    }
}

fn at(x_advance: i32, x_offset: i32) -> Position {
    Position {
        x_advance,
        x_offset,
        ..Position::default()
    }
}

// The number with which a line of one sign is refused at spacing, 0 where it is not; its position must then be as it was.
fn spaced_number(code: u32, position: Position) -> Result<u8, Fail> {
    let face = RecordFace::new(1000, &[], &[]).map_err(|_| Fail::new("no face"))?;
    let mut rows = [row(65, 9)];
    let mut positions = [at(0, 0)];
    let line = Written::new(1, Settings::default()).map_err(|_| Fail::new("not written"))?;
    let line = line
        .classed(&mut rows)
        .map_err(|_| Fail::new("not classed"))?;
    let line = line
        .mapped(&face, &mut rows, &mut positions)
        .map_err(|_| Fail::new("not mapped"))?;
    rows[0].code = code;
    positions[0] = position;
    let spaced = line.spaced(&face, &rows, &mut positions);
    Ok(refusal_number(spaced.map_err(|refused| refused.refusal)))
}

#[test]
fn signs(rt: HostRuntime) {
    assert_eq!(rt; sign_number(0x10FFFF, 9), 0);
    assert_eq!(rt; sign_number(0x110000, 9), 10);
    assert_eq!(rt; sign_number(0x110000, 30), 10);
    assert_eq!(rt; sign_number(65, 30), 11);
    assert_eq!(rt; sign_number(65, 0xFF1F), 11);
    assert_eq!(rt; sign_number(65, 0xFF0C), 12);
    assert_eq!(rt; sign_number(65, 0xFE0C), 0);
    assert_eq!(rt; sign_number(65, 0xFF09), 0);
}

// No clause says a sign's text, which is that of its four numbers, whatever holds them.
#[test]
fn text_of_a_sign(rt: HostRuntime) -> Result<(), Fail> {
    let sign = Sign::read(SignRow {
        code: 65,
        unicode_props: 9,
        glyph_props: 4,
        lig_props: 33,
    });
    let text = format!(in rt.alloc(); "{sign:?}").map_err(|_| Fail::new("no room for the text"))?;
    let numbers = "Sign { code: 65, unicode_props: 9, glyph_props: 4, lig_props: 33 }";
    assert_eq!(rt; text.as_str(), numbers);
    Ok(())
}

#[test]
fn lengths(rt: HostRuntime) -> Result<(), Fail> {
    assert!(rt; Written::new(256, Settings::default()).is_ok());
    assert!(rt; Written::new(257, Settings::default()).is_err());
    let glyphs: [GlyphRecord; 1] = [boxed(1, 600, [0, 0, 600, 700])];
    let face = RecordFace::new(1000, &glyphs, &[]).map_err(|_| Fail::new("refused"))?;
    let mut rows = [row(65, 9), row(66, 30)];
    let mut positions = [at(7, 8)];
    assert!(rt; route_line(&face, Settings::default(), &mut rows, &mut positions).is_err());
    assert!(rt; rows[1].unicode_props == 30 && positions[0].x_offset == 8);
    Ok(())
}

#[test]
fn bounds_of_a_line(rt: HostRuntime) -> Result<(), Fail> {
    assert_eq!(rt; spaced_number(65535, at(65535, 40000000))?, 0);
    assert_eq!(rt; spaced_number(65535, at(-65535, -40000000))?, 0);
    assert_eq!(rt; spaced_number(65536, at(0, 0))?, 16);
    assert_eq!(rt; spaced_number(0, at(65536, 0))?, 16);
    assert_eq!(rt; spaced_number(0, at(-65536, 0))?, 16);
    assert_eq!(rt; spaced_number(0, at(0, 40000001))?, 16);
    assert_eq!(rt; spaced_number(0, at(0, -2147483648))?, 16);
    Ok(())
}
