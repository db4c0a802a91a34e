// Telling the story by the calls of a legend.
ghost use Rattle.std.specs.Prelude.{◌≡◌, List, IsOkAnd};
ghost use Rattle.faces.specs.Meaning.{FaceMeaning, Keeps};
ghost use Rattle.incident.specs.Story.{Seen, Told};
ghost use Rattle.legends.specs.Leaves.{left_by};
ghost use Rattle.legends.specs.Lent.{state_seen};
ghost use Rattle.legends.specs.declared.Call.{Call};

use crate::reports::{BAR_BENEATH, BAR_OVER, LETTER};
use crate::story::Story;
use drawings::{Item, Pen, Room};
use faces::Face;
use legends::{Legend, Lists, Refusal, View};
use placement::{Direction, Position, Settings};
use signs::SignRow;

// What is seen of a legend of two signs. After calls it is never refused.
fn seen(legend: &Legend, view: &View) -> [Item; 2]
    ensures { (f : FaceMeaning) → Keeps f → (calls : List Call) → state_seen legend.now view.now ≡ left_by f 2 calls → Seen f calls result }
{
    let mut items = [Item::default(); 2];
    let mut pens = [Pen::default(); 2];
    let mut room = Room {
        items: &mut items,
        pens: &mut pens,
    };
    let _ = legend.draw(view, &mut room);
    items
}

// Makes a legend of two signs, puts the letter, reports it locked, then closed, and turns it; each time the keeper looks.
pub fn tell<F: Face>(face: &F) -> Result<Story, Refusal>
    ensures { IsOkAnd result (Told (F.meaning face.now)) }
{
    let mut signs = [SignRow::default(); 2];
    let mut mapped = [SignRow::default(); 2];
    let mut positions = [Position::default(); 2];
    let mut lists = Lists {
        signs: &mut signs,
        mapped: &mut mapped,
        positions: &mut positions,
    };
    let mut legend = Legend::make(face, 2, &mut lists)?;
    let blank = seen(&legend, &lists.view());
    legend.put(face, &mut lists, 0, LETTER)?;
    let letter = seen(&legend, &lists.view());
    legend.put(face, &mut lists, 1, BAR_OVER)?;
    let locked = seen(&legend, &lists.view());
    legend.put(face, &mut lists, 1, BAR_BENEATH)?;
    let closed = seen(&legend, &lists.view());
    let leftward = Settings {
        direction: Direction::RightToLeft,
        ..Settings::default()
    };
    // Taken apart: the borrow checker refuses a field that is read while another one of the struct is lent.
    let Lists {
        signs,
        mapped,
        positions,
    } = lists;
    legend.turn(face, signs, mapped, positions, leftward)?;
    let view = View {
        signs,
        mapped,
        positions,
    };
    let turned = seen(&legend, &view);
    Ok(Story {
        blank,
        letter,
        locked,
        closed,
        turned,
    })
}
