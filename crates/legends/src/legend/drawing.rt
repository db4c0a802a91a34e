// Drawing a legend.
ghost use Rattle.std.specs.Prelude.{◌≡◌, ℕ, true, List, length, is_ok, if◌then◌else◌};
ghost use Rattle.faces.specs.Meaning.{FaceMeaning, Keeps};
ghost use Rattle.legends.specs.Answers.{draw_answer, room_answer};
ghost use Rattle.legends.specs.Leaves.{left_by};
ghost use Rattle.legends.specs.Lent.{state_seen};
ghost use Rattle.legends.specs.Promise.{Look};
ghost use Rattle.legends.specs.declared.call.Call.{Call};
ghost use Rattle.drawings.specs.DrawAnswers.{PensAfter, SameRoom};
ghost use Rattle.drawings.specs.Drawing.{drawn_over};
ghost use Rattle.placement.specs.Bounded.{bounded};

use crate::laws::histories_stand;
use crate::legend::Legend;
use crate::lists::View;
use crate::refusal::Refusal;
use drawings::{Room, draw_line};

impl Legend {
    // Draws every sign; entries of the drawing past them stay. The pens are room to work in: what they hold afterwards is free.
    pub fn draw(&self, view: &View, room: &mut Room) -> Result<(), Refusal>
        ensures answer { result ≡ draw_answer (length room.old.items.now) (length room.old.pens.now) (bounded view.now.mapped.now view.now.positions.now) (state_seen self.now view.now) }
        ensures items { room.new.items.now ≡ (if is_ok result then drawn_over self.now.settings view.now.mapped.now view.now.positions.now room.old.items.now else room.old.items.now) }
        ensures pens { PensAfter (is_ok result) room.old.pens.now room.new.pens.now }
        ensures same { SameRoom room.old room.new }
        ensures decided { (f : FaceMeaning) → Keeps f → (n : ℕ) (calls : List Call) → state_seen self.now view.now ≡ left_by f n calls → result ≡ room_answer n (length room.old.items.now) (length room.old.pens.now) }
        ensures look { (f : FaceMeaning) → Keeps f → (n : ℕ) (calls : List Call) → state_seen self.now view.now ≡ left_by f n calls → is_ok result ≡ true → Look f n calls room.new.items.now }
    {
        histories_stand();
        if !view.fit(self.len) {
            return Err(Refusal::Length);
        }
        draw_line(self.settings, view.mapped, view.positions, room)?;
        Ok(())
    }
}
