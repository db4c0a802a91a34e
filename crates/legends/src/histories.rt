// Any list of calls, carried out one after another, and the look after them.
ghost use Rattle.std.specs.Prelude.{◌≡◌, ◌≤◌, true, ◌++◌, length, drop, is_ok, if◌then◌else◌};
ghost use Rattle.legends.specs.Answers.{answer_to, look_answer};
ghost use Rattle.legends.specs.Book.{book_after};
ghost use Rattle.legends.specs.Fits.{Fit};
ghost use Rattle.legends.specs.Leaves.{drawn_by, leaves, left_by, lists_of, state};
ghost use Rattle.legends.specs.Lent.{SameLists, three_lists};
ghost use Rattle.legends.specs.Promise.{Look, from_blank};
ghost use Rattle.drawings.specs.DrawAnswers.{PensAfter, SameRoom};
ghost use Rattle.placement.specs.Bounded.{bounded};

use crate::call::Call;
use crate::laws::histories_stand;
use crate::legend::Legend;
use crate::lists::{Lists, View};
use crate::refusal::Refusal;
use drawings::{Item, Pen, Room};
use faces::Face;
use placement::Position;
use signs::SignRow;

// Carries out one call, which is lent a part of each list, as a caller may hand too little.
// It takes slices: the borrow checker refuses fields of a lent struct that are split and made into a struct again.
fn obey<F: Face>(
    call: Call,
    legend: &mut Legend,
    face: &F,
    signs: &mut [SignRow],
    mapped: &mut [SignRow],
    positions: &mut [Position],
    items: &mut [Item],
    pens: &mut [Pen],
) -> Result<(), Refusal>
    requires fit { Fit legend.old.len (length signs.old) (length mapped.old) (length positions.old) }
    requires room { (legend.old.len ≤ length items.old) × (legend.old.len ≤ length pens.old) }
    requires bounded { bounded mapped.old positions.old ≡ true }
    ensures answer { result ≡ answer_to legend.old.len call }
    ensures lists { state legend.new signs.new mapped.new positions.new ≡ leaves (F.meaning face.now) call (state legend.old signs.old mapped.old positions.old) }
    ensures items { items.new ≡ (if is_ok result then drawn_by call (state legend.old signs.old mapped.old positions.old) items.old else items.old) }
{
    let end = legend.len.min(call.lent());
    // Split, and no `&mut signs[..end]`: what such a part holds is lost to the proof once the part is in a struct.
    let (signs, _) = signs.split_at_mut(end);
    let (mapped, _) = mapped.split_at_mut(end);
    let (positions, _) = positions.split_at_mut(end);
    match call {
        Call::Put { place, row, .. } => {
            let mut lists = Lists {
                signs,
                mapped,
                positions,
            };
            legend.put(face, &mut lists, place, row)
        }
        Call::Turn { settings, .. } => legend.turn(face, signs, mapped, positions, settings),
        Call::Draw { room, .. } => {
            let items_end = items.len().min(room);
            let pens_end = pens.len().min(room);
            let (items, _) = items.split_at_mut(items_end);
            let (pens, _) = pens.split_at_mut(pens_end);
            let view = View {
                signs,
                mapped,
                positions,
            };
            legend.draw(&view, &mut Room { items, pens })
        }
    }
}

// Makes a legend of len signs, carries out the calls in their order, some of them refused, and looks.
pub fn look_after<F: Face>(
    face: &F,
    len: usize,
    calls: &[Call],
    lists: &mut Lists,
    room: &mut Room,
) -> Result<Legend, Refusal>
    ensures answer { result ≡ look_answer len calls.now (length lists.old.signs.now) (length lists.old.mapped.now) (length lists.old.positions.now) (length room.old.items.now) (length room.old.pens.now) }
    ensures lists { three_lists lists.new ≡ (if is_ok result then lists_of (left_by (F.meaning face.now) len calls.now) else three_lists lists.old) }
    ensures same { SameLists lists.old lists.new }
    ensures items { room.new.items.now ≡ (if is_ok result then from_blank (F.meaning face.now) (book_after len calls.now) ++ drop len room.old.items.now else room.old.items.now) }
    ensures pens { PensAfter (is_ok result) room.old.pens.now room.new.pens.now }
    ensures same_room { SameRoom room.old room.new }
    ensures look { is_ok result ≡ true → Look (F.meaning face.now) len calls.now room.new.items.now }
{
    if !lists.fit(len) {
        return Err(Refusal::Length);
    }
    if !room.holds(len) {
        return Err(Refusal::NoRoom);
    }
    histories_stand();
    let mut legend = Legend::make(face, len, lists)?;
    for call in calls {
        let _ = obey(
            *call,
            &mut legend,
            face,
            lists.signs,
            lists.mapped,
            lists.positions,
            room.items,
            room.pens,
        );
    }
    legend.draw(&lists.view(), room)?;
    Ok(legend)
}
