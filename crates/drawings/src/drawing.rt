// Drawing a line into lists that the caller lends: first the pen before each sign is noted, then each sign is drawn there.
ghost use Rattle.std.specs.Prelude.{◌≡◌, ◌<◌, ◌≤◌, ◌++◌, length, drop, is_ok, if◌then◌else◌};
ghost use Rattle.drawings.specs.DrawAnswers.{PensAfter, SameRoom, draw_answer};
ghost use Rattle.drawings.specs.Drawing.{drawn_in, drawn_over, side};
ghost use Rattle.drawings.specs.Pens.{Penned, place_at};
ghost use Rattle.placement.specs.Room.{AllLight};

use crate::item::Item;
use crate::pen::Pen;
use crate::refusal::Refusal;
use crate::room::Room;
use placement::{MOST_SIGNS, Position, Settings, all_bounded, bounds_stand};
use signs::SignRow;

// The place that is drawn after k others. Lists are read by index, as an iterator from the front and one from the back are
// two types.
fn place_at(forward: bool, len: usize, k: usize) -> usize
    requires { k < len }
    ensures value { result ≡ place_at forward len k }
    ensures within { result < len }
{
    if forward { k } else { len - 1 - k }
}

// Notes the pen before each sign, in drawing order.
fn set_pens(forward: bool, positions: &[Position], pens: &mut [Pen])
    requires few { length positions.now ≤ 256 }
    requires room { length positions.now ≤ length pens.old }
    requires light { AllLight positions.now }
    ensures { Penned forward positions.now pens.new }
{
    let len = positions.len();
    let mut pen = Pen::default();
    for (k, noted) in pens[..len].iter_mut().enumerate() {
        *noted = pen;
        pen = pen.after(positions[place_at(forward, len, k)]);
    }
}

// Draws each sign at its pen.
fn draw_items(
    forward: bool,
    rows: &[SignRow],
    positions: &[Position],
    items: &mut [Item],
    pens: &[Pen],
)
    requires few { length positions.now ≤ 256 }
    requires long { length positions.now ≡ length rows.now }
    requires room { (length rows.now ≤ length items.old) × (length rows.now ≤ length pens.now) }
    requires light { AllLight positions.now }
    requires pens { Penned forward positions.now pens.now }
    ensures { items.new ≡ drawn_in forward (side rows.now positions.now) ++ drop (length rows.now) items.old }
{
    let len = positions.len();
    for (k, drawn) in items[..len].iter_mut().enumerate() {
        let place = place_at(forward, len, k);
        *drawn = pens[k].item(place, rows[place], positions[place]);
    }
}

// Draws a line. The first items are the line's, in drawing order; the pens are room to work in.
pub fn draw_line(
    settings: Settings,
    rows: &[SignRow],
    positions: &[Position],
    room: &mut Room,
) -> Result<(), Refusal>
    ensures answer { result ≡ draw_answer rows.now positions.now (length room.old.items.now) (length room.old.pens.now) }
    ensures items { room.new.items.now ≡ (if is_ok result then drawn_over settings rows.now positions.now room.old.items.now else room.old.items.now) }
    ensures pens { PensAfter (is_ok result) room.old.pens.now room.new.pens.now }
    ensures same { SameRoom room.old room.new }
{
    // The lengths of a line, whose test in the steps of a line is private.
    let len = rows.len();
    if len > MOST_SIGNS || positions.len() != len {
        return Err(Refusal::Length);
    }
    if !room.holds(len) {
        return Err(Refusal::NoRoom);
    }
    if !all_bounded(rows, positions) {
        return Err(Refusal::OutOfBounds);
    }
    bounds_stand();
    let forward = settings.direction.is_forward();
    let pens = &mut *room.pens;
    set_pens(forward, positions, pens);
    draw_items(forward, rows, positions, room.items, pens);
    Ok(())
}
