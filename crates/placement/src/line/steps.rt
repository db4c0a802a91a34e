// The steps of a line, in the only order in which they can be taken.
ghost use Rattle.std.specs.Prelude.{◌≡◌, map, length, is_ok, if◌then◌else◌};
ghost use Rattle.placement.specs.Directions.{is_horizontal};
ghost use Rattle.placement.specs.Lines.{cells, positions_of, rows_of};
ghost use Rattle.placement.specs.Mapped.{map_position, map_row};
ghost use Rattle.placement.specs.Placements.{placed_line};
ghost use Rattle.placement.specs.Route.{route};
ghost use Rattle.placement.specs.Spaces.{spaced_along};
ghost use Rattle.placement.specs.Steps.{class_answer, fits, fitted, further, held, map_answer, place_answer, route_answer, space_answer, write_answer};
ghost use Rattle.signs.specs.Reclassing.{reclassed};

use crate::bounded::all_bounded;
use crate::classing::class_all;
use crate::layout::Layout;
use crate::line::{Classed, Line, MOST_SIGNS, Mapped, Placed, Refused, Spaced, Written};
use crate::position::Position;
use crate::refusal::Refusal;
use crate::settings::Settings;
use faces::Face;
use signs::SignRow;
use std::marker::PhantomData;

// Whether a line of len signs may be worked on with lists of these lengths.
fn fitting(len: usize, rows: usize, positions: usize) -> bool
    ensures { result ≡ fits len rows positions }
{
    len <= MOST_SIGNS && rows == len && positions == len
}

impl<S> Line<S> {
    fn refused(self, refusal: Refusal) -> Refused<Self>
        ensures { result ≡ record { line = self; refusal = refusal } }
    {
        Refused {
            line: self,
            refusal,
        }
    }

    // The line, if these are the lengths of its lists.
    fn fitted(self, rows: usize, positions: usize) -> Result<Self, Refused<Self>>
        ensures { result ≡ fitted self self rows positions }
    {
        if fitting(self.len, rows, positions) {
            Ok(self)
        } else {
            Err(self.refused(Refusal::Length))
        }
    }

    // The line, if these are its lists and hold what a line may hold.
    fn bounded(self, rows: &[SignRow], positions: &[Position]) -> Result<Self, Refused<Self>>
        ensures { result ≡ held self self rows.now positions.now }
    {
        let line = self.fitted(rows.len(), positions.len())?;
        if all_bounded(rows, positions) {
            Ok(line)
        } else {
            Err(line.refused(Refusal::OutOfBounds))
        }
    }

    // How it is laid out over a face.
    fn over<'a, F: Face>(&self, face: &'a F) -> Layout<'a, F>
        ensures face { result.face.now ≡ face.now }
        ensures settings { result.settings ≡ self.now.settings }
    {
        Layout {
            face,
            settings: self.settings,
        }
    }

    // The line a step further.
    fn step<T>(self) -> Line<T>
        ensures { result ≡ further self }
    {
        let Line { len, settings, .. } = self;
        Line {
            len,
            settings,
            step: PhantomData,
        }
    }
}

impl Written {
    // A line of len signs.
    pub fn new(len: usize, settings: Settings) -> Result<Written, Refusal>
        ensures { result ≡ write_answer len settings }
    {
        if len > MOST_SIGNS {
            return Err(Refusal::Length);
        }
        Ok(Line {
            len,
            settings,
            step: PhantomData,
        })
    }

    // Every nonspacing mark gets the class by which it is placed.
    pub fn classed(self, rows: &mut [SignRow]) -> Result<Classed, Refused<Written>>
        ensures answer { result ≡ class_answer self (length rows.old) }
        ensures rows { rows.new ≡ (if is_ok result then map reclassed rows.old else rows.old) }
    {
        let len = self.len;
        let line = self.fitted(rows.len(), len)?;
        class_all(rows);
        Ok(line.step())
    }
}

impl Classed {
    // Every code becomes the face's glyph, every position its advance along the line.
    pub fn mapped<F: Face>(
        self,
        face: &F,
        rows: &mut [SignRow],
        positions: &mut [Position],
    ) -> Result<Mapped, Refused<Classed>>
        ensures answer { result ≡ map_answer self (length rows.old) (length positions.old) }
        ensures rows { rows.new ≡ (if is_ok result then map (map_row (F.meaning face.now)) rows.old else rows.old) }
        ensures positions { positions.new ≡ (if is_ok result then map (map_position (F.meaning face.now) (is_horizontal self.settings.direction)) rows.old else positions.old) }
    {
        let line = self.fitted(rows.len(), positions.len())?;
        line.over(face).map_all(rows, positions);
        Ok(line.step())
    }
}

impl Mapped {
    // Every space gets the advance of its type.
    pub fn spaced<F: Face>(
        self,
        face: &F,
        rows: &[SignRow],
        positions: &mut [Position],
    ) -> Result<Spaced, Refused<Mapped>>
        ensures answer { result ≡ space_answer self rows.now positions.old }
        ensures positions { positions.new ≡ (if is_ok result then positions_of (map (spaced_along (F.meaning face.now) (is_horizontal self.settings.direction)) (cells rows.now positions.old)) else positions.old) }
    {
        let line = self.bounded(rows, positions)?;
        line.over(face).fallback_spaces(rows, positions);
        Ok(line.step())
    }
}

impl Spaced {
    // The marks of every group go to their places.
    pub fn placed<F: Face>(
        self,
        face: &F,
        rows: &[SignRow],
        positions: &mut [Position],
    ) -> Result<Placed, Refused<Spaced>>
        ensures answer { result ≡ place_answer self rows.now positions.old }
        ensures positions { positions.new ≡ (if is_ok result then positions_of (placed_line (F.meaning face.now) self.settings (cells rows.now positions.old)) else positions.old) }
    {
        let line = self.bounded(rows, positions)?;
        line.over(face).position_marks(rows, positions);
        Ok(line.step())
    }
}

// The whole route at once, from the signs as they are written to their places.
pub fn route_line<F: Face>(
    face: &F,
    settings: Settings,
    rows: &mut [SignRow],
    positions: &mut [Position],
) -> Result<Placed, Refusal>
    ensures answer { result ≡ route_answer settings (length rows.old) (length positions.old) }
    ensures rows { rows.new ≡ (if is_ok result then rows_of (route (F.meaning face.now) settings rows.old) else rows.old) }
    ensures positions { positions.new ≡ (if is_ok result then positions_of (route (F.meaning face.now) settings rows.old) else positions.old) }
{
    let len = rows.len();
    if !fitting(len, len, positions.len()) {
        return Err(Refusal::Length);
    }
    let layout = Layout { face, settings };
    class_all(rows);
    layout.map_all(rows, positions);
    layout.fallback_spaces(rows, positions);
    layout.position_marks(rows, positions);
    Ok(Line {
        len,
        settings,
        step: PhantomData,
    })
}
