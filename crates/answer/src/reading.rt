// Reading the lines of a case.
use crate::case::{Case, Start};
use crate::script::script_number;
use anyhow::anyhow;
use faces::{CodeRecord, GlyphRecord};
use placement::{Direction, Position, Settings};
use signs::SignRow;
use std::alloc::Global;

fn is_set(field: &str) -> anyhow::Result<bool> {
    Ok(field.parse::<i64>()? != 0)
}

// One message of this program for any number that stands for none.
fn direction(field: &str) -> anyhow::Result<Direction> {
    let number = field.parse::<i64>()?;
    u8::try_from(number)
        .ok()
        .and_then(|number| Direction::try_from(number).ok())
        .ok_or_else(|| anyhow!("a direction is 1 to 4"))
}

fn script(field: &str) -> anyhow::Result<u32> {
    script_number(field.as_bytes()).ok_or_else(|| anyhow!("a script is four letters or -"))
}

// glyph, across, down, left, bottom, right, top
fn boxed(fields: &[&str]) -> anyhow::Result<GlyphRecord> {
    let [glyph, across, down, left, bottom, right, top] = fields else {
        return Err(anyhow!("a glyph with a box has seven numbers"));
    };
    Ok(GlyphRecord {
        glyph: glyph.parse::<u16>()?,
        across: across.parse::<u16>()?,
        down: down.parse::<u16>()?,
        has_box: true,
        left: left.parse::<i16>()?,
        bottom: bottom.parse::<i16>()?,
        right: right.parse::<i16>()?,
        top: top.parse::<i16>()?,
    })
}

// glyph, across, down; without a box the edges are not looked at, and a struct with ghost fields derives no `Default`
fn bare(fields: &[&str]) -> anyhow::Result<GlyphRecord> {
    let [glyph, across, down] = fields else {
        return Err(anyhow!("a glyph without a box has three numbers"));
    };
    Ok(GlyphRecord {
        glyph: glyph.parse::<u16>()?,
        across: across.parse::<u16>()?,
        down: down.parse::<u16>()?,
        has_box: false,
        left: 0,
        bottom: 0,
        right: 0,
        top: 0,
    })
}

// code, glyph
fn code(fields: &[&str]) -> anyhow::Result<CodeRecord> {
    let [code, glyph] = fields else {
        return Err(anyhow!("a code has two numbers"));
    };
    Ok(CodeRecord {
        code: code.parse::<u32>()?,
        glyph: glyph.parse::<u16>()?,
    })
}

// code, unicode_props, glyph_props, lig_props
fn sign(fields: &[&str]) -> anyhow::Result<SignRow> {
    let [code, unicode_props, glyph_props, lig_props] = fields else {
        return Err(anyhow!("a sign has four numbers"));
    };
    Ok(SignRow {
        code: code.parse::<u32>()?,
        unicode_props: unicode_props.parse::<u16>()?,
        glyph_props: glyph_props.parse::<u16>()?,
        lig_props: lig_props.parse::<u8>()?,
    })
}

// place, x_advance, y_advance, x_offset, y_offset
fn start(fields: &[&str]) -> anyhow::Result<Start> {
    let [place, x_advance, y_advance, x_offset, y_offset] = fields else {
        return Err(anyhow!("a start position has five numbers"));
    };
    Ok(Start {
        place: place.parse::<usize>()?,
        position: Position {
            x_advance: x_advance.parse::<i32>()?,
            y_advance: y_advance.parse::<i32>()?,
            x_offset: x_offset.parse::<i32>()?,
            y_offset: y_offset.parse::<i32>()?,
        },
    })
}

fn only<'a>(fields: &[&'a str]) -> anyhow::Result<&'a str> {
    match fields {
        [field] => Ok(*field),
        _ => Err(anyhow!("one number is wanted")),
    }
}

impl Case {
    // len, direction, script, adjust: a new line over the same face
    fn begin_line(&mut self, fields: &[&str]) -> anyhow::Result<()> {
        let [len, way, letters, adjust] = fields else {
            return Err(anyhow!("a line has four fields"));
        };
        self.len = len.parse::<usize>()?;
        self.settings = Settings {
            direction: direction(way)?,
            script: script(letters)?,
            adjust: is_set(adjust)?,
        };
        self.rows.clear();
        self.starts.clear();
        Ok(())
    }

    // Takes the fields that stand after a word: of a line of signs, or else of the face, or else of the case. Three functions, since
    // each clears room for the values of all its words whenever it is entered, which for ten words is a quarter of the time of reading.
    fn take_fields(&mut self, heap: Global, word: &str, fields: &[&str]) -> anyhow::Result<()> {
        match word {
            "line" => self.begin_line(fields)?,
            "sign" => self.rows.push(sign(fields)?)?,
            "pos" => self.starts.push(start(fields)?)?,
            _ => return self.take_face(heap, word, fields),
        }
        Ok(())
    }

    fn take_face(&mut self, heap: Global, word: &str, fields: &[&str]) -> anyhow::Result<()> {
        match word {
            "em" => self.em = only(fields)?.parse::<u32>()?,
            "glyph" => self.glyphs.push(boxed(fields)?)?,
            "bare" => self.glyphs.push(bare(fields)?)?,
            "code" => self.codes.push(code(fields)?)?,
            _ => return self.take_case(heap, word, fields),
        }
        Ok(())
    }

    fn take_case(&mut self, heap: Global, word: &str, fields: &[&str]) -> anyhow::Result<()> {
        match word {
            "case" => *self = Case::new(heap, fields.first().copied().unwrap_or(""))?,
            "clean" => {}
            "trace" => self.trace = is_set(only(fields)?)?,
            _ => return Err(anyhow!("an unknown word")),
        }
        Ok(())
    }

    // Takes a line of the input; whether the case is to be answered now.
    pub fn take_line(&mut self, heap: Global, line: &str) -> anyhow::Result<bool> {
        let line = line.trim_end();
        if line.is_empty() || line.starts_with('#') {
            return Ok(false);
        }
        if line == "run" {
            return Ok(true);
        }
        let fields = line.split(',').collect::<Vec<&str>>(heap)?;
        if let [word, rest @ ..] = fields.as_slice() {
            self.take_fields(heap, word, rest)?;
        }
        Ok(false)
    }
}
