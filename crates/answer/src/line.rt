// The lists of a line: its rows, and the positions of its signs.
use crate::case::{Case, Start};
use crate::drawing::{Drawing, draw};
use crate::stop::Stop;
use anyhow::anyhow;
use faces::Face;
use placement::{Mapped, Position, Settings, Written};
use signs::{Sign, SignRow};
use std::alloc::{AllocError, Global};
use std::io::Write;
use std::{fmt, io};

#[derive(Drop)]
pub struct Line {
    rows: Vec<SignRow>,
    positions: Vec<Position>,
}

// A sign as it is shown after a step.
#[derive(Clone, Copy)]
struct Shown {
    place: usize,
    row: SignRow,
    position: Position,
}

impl Shown {
    // The class of a mark; 0 for any other sign, as the original has it.
    fn class(&self) -> u8 {
        let sign = Sign::read(self.row);
        if sign.is_mark() { sign.class() } else { 0 }
    }
}

impl fmt::Display for Shown {
    fn fmt<W: fmt::Write>(&self, f: &mut fmt::Formatter<W>) -> fmt::Result {
        let Position {
            x_advance,
            y_advance,
            x_offset,
            y_offset,
        } = self.position;
        write!(f, "{},{},{},", self.place, self.class(), self.row.code)?;
        write!(f, "{x_advance},{y_advance},{x_offset},{y_offset},")?;
        write!(f, "{}", self.row.unicode_props)
    }
}

impl Line {
    // The line of a case before any step.
    pub fn written(heap: Global, case: &Case) -> Result<Line, AllocError> {
        Ok(Line {
            rows: case.rows.clone()?,
            positions: vec![in heap; Position::default(); case.rows.len()]?,
        })
    }

    // The line as far as it is mapped.
    fn mapped<F: Face>(
        &mut self,
        face: &F,
        len: usize,
        settings: Settings,
    ) -> Result<Mapped, Stop> {
        let written = Written::new(len, settings)?;
        let classed = written.classed(self.rows.as_mut_slice())?;
        Ok(classed.mapped(
            face,
            self.rows.as_mut_slice(),
            self.positions.as_mut_slice(),
        )?)
    }

    // Start positions take the place of what mapping put.
    fn put_starts(&mut self, starts: &[Start]) -> anyhow::Result<()> {
        for start in starts {
            let position = self
                .positions
                .get_mut(start.place)
                .ok_or_else(|| anyhow!("a start position is for a place of the line"))?;
            *position = start.position;
        }
        Ok(())
    }

    fn show(&self, out: &mut impl Write, step: &str) -> io::Result<()> {
        for (place, (row, position)) in self.rows.iter().zip(&self.positions).enumerate() {
            let shown = Shown {
                place,
                row: *row,
                position: *position,
            };
            writeln!(out, "{step},{shown}")?;
        }
        Ok(())
    }

    // Takes every step of a case, and shows what the case asks for on the way; gives the drawing.
    pub fn drawn<F: Face>(
        &mut self,
        heap: Global,
        out: &mut impl Write,
        face: &F,
        case: &Case,
    ) -> Result<Drawing, Stop> {
        let mapped = self.mapped(face, case.len, case.settings)?;
        self.put_starts(case.starts.as_slice())?;
        if case.trace {
            self.show(out, "mapped")?;
        }
        let spaced = mapped.spaced(face, self.rows.as_slice(), self.positions.as_mut_slice())?;
        if case.trace {
            self.show(out, "spaced")?;
        }
        let _placed = spaced.placed(face, self.rows.as_slice(), self.positions.as_mut_slice())?;
        self.show(out, "at")?;
        Ok(draw(
            heap,
            case.settings.direction.is_forward(),
            self.rows.as_slice(),
            self.positions.as_slice(),
        )?)
    }
}
