// Making, putting and turning. Each call leaves the lists it is lent as they were where it refuses.
ghost use Rattle.std.specs.Prelude.{◌≡◌, length, is_ok, if◌then◌else◌};
ghost use Rattle.legends.specs.Answers.{make_answer, put_answer, turn_answer};
ghost use Rattle.legends.specs.Leaves.{InStep, after_make, after_put, after_turn, left_if, lists_of, state};
ghost use Rattle.legends.specs.Lent.{Made, SameLists, state_of, three_lists};

use crate::legend::Legend;
use crate::lists::parts::copy_part;
use crate::lists::{Lists, View};
use crate::refusal::Refusal;
use crate::span::span;
use faces::Face;
use placement::{Position, Settings, lines_stand, route_line};
use signs::SignRow;

// What a sign is until one is put in its place: a space. Zeros are written out, as a constant can call no `default`.
const BLANK: SignRow = SignRow {
    code: 32,
    unicode_props: 4637,
    glyph_props: 0,
    lig_props: 0,
};

impl Legend {
    // A legend of len signs, all blank, and its lists.
    pub fn make<F: Face>(face: &F, len: usize, lists: &mut Lists) -> Result<Legend, Refusal>
        ensures answer { result ≡ make_answer len (length lists.old.signs.now) (length lists.old.mapped.now) (length lists.old.positions.now) }
        ensures lists { three_lists lists.new ≡ (if is_ok result then lists_of (after_make (F.meaning face.now) len) else three_lists lists.old) }
        ensures made { Made result lists.new (after_make (F.meaning face.now) len) }
        ensures same { SameLists lists.old lists.new }
    {
        if !lists.fit(len) {
            return Err(Refusal::Length);
        }
        let settings = Settings::default();
        lists.signs.fill(BLANK);
        lists.mapped.fill(BLANK);
        route_line(face, settings, lists.mapped, lists.positions)?;
        Ok(Legend { len, settings })
    }

    // Puts a sign at a place. Only the span of the place goes its route anew, and nothing outside it changes.
    pub fn put<F: Face>(
        &self,
        face: &F,
        lists: &mut Lists,
        place: usize,
        row: SignRow,
    ) -> Result<(), Refusal>
        ensures answer { result ≡ put_answer place (state_of self.now lists.old) }
        ensures lists { state_of self.now lists.new ≡ left_if (is_ok result) (after_put (F.meaning face.now) place row) (state_of self.now lists.old) }
        ensures step { InStep (F.meaning face.now) (state_of self.now lists.old) → InStep (F.meaning face.now) (state_of self.now lists.new) }
        ensures same { SameLists lists.old lists.new }
    {
        if !lists.fit(self.len) {
            return Err(Refusal::Length);
        }
        if place >= self.len {
            return Err(Refusal::NoPlace);
        }
        lines_stand();
        let signs = &mut *lists.signs;
        let (first, end) = span(signs, place);
        signs[place] = row;
        copy_part(signs, lists.mapped, first, end);
        route_line(
            face,
            self.settings,
            &mut lists.mapped[first..end],
            &mut lists.positions[first..end],
        )?;
        Ok(())
    }

    // Sets the line anew; all signs go their route. The signs put are only read, so the three are no `Lists`, which
    // would ask for more.
    pub fn turn<F: Face>(
        &mut self,
        face: &F,
        signs: &[SignRow],
        mapped: &mut [SignRow],
        positions: &mut [Position],
        settings: Settings,
    ) -> Result<(), Refusal>
        ensures answer { result ≡ turn_answer (state self.old signs.now mapped.old positions.old) }
        ensures lists { state self.new signs.now mapped.new positions.new ≡ left_if (is_ok result) (after_turn (F.meaning face.now) settings) (state self.old signs.now mapped.old positions.old) }
    {
        let view = View {
            signs,
            mapped,
            positions,
        };
        if !view.fit(self.len) {
            return Err(Refusal::Length);
        }
        mapped.copy_from_slice(signs);
        route_line(face, settings, mapped, positions)?;
        self.settings = settings;
        Ok(())
    }
}
