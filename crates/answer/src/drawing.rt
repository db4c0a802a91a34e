// Drawing a placed line into items.
ghost use Rattle.std.specs.Prelude.{◌≡◌, ◌<◌, ◌≤◌, length, IfOk};
ghost use Rattle.answer.specs.Drawn.{items_of, pen_after, place_at};

use crate::pen::{Item, Pen};
use anyhow::anyhow;
use placement::{MOST_SIGNS, Position};
use signs::SignRow;
use std::alloc::Global;

#[derive(Drop)]
pub struct Drawing {
    pub items: Vec<Item>,
    // The pen after the last sign.
    pub pen: Pen,
}

// The place that is drawn after k others. That of `drawings` is not public: nobody else draws by places.
fn place_at(forward: bool, len: usize, k: usize) -> usize
    requires { k < len }
    ensures value { result ≡ place_at forward len k }
    ensures within { result < len }
{
    if forward { k } else { len - 1 - k }
}

fn draw_all(
    heap: Global,
    forward: bool,
    rows: &[SignRow],
    positions: &[Position],
) -> anyhow::Result<Drawing>
    requires same { length positions.now ≡ length rows.now }
    requires few { length rows.now ≤ 256 }
    ensures items { IfOk result (λ d. d.items.items ≡ items_of forward rows.now positions.now (length rows.now)) }
    ensures pen { IfOk result (λ d. d.pen ≡ pen_after forward rows.now positions.now (length rows.now)) }
{
    let mut items = Vec::new(heap);
    let mut pen = Pen::default();
    // By number, since the places run up or down: a chain, and the same one reversed, would have two types.
    for k in 0..rows.len() {
        let place = place_at(forward, rows.len(), k);
        let position = positions[place];
        items.push(pen.item(place, rows[place], position))?;
        pen = pen.after(position);
    }
    Ok(Drawing { items, pen })
}

// The items of a placed line, and the pen after them.
pub fn draw(
    heap: Global,
    forward: bool,
    rows: &[SignRow],
    positions: &[Position],
) -> anyhow::Result<Drawing>
    ensures items { IfOk result (λ d. d.items.items ≡ items_of forward rows.now positions.now (length rows.now)) }
    ensures pen { IfOk result (λ d. d.pen ≡ pen_after forward rows.now positions.now (length rows.now)) }
{
    if rows.len() > MOST_SIGNS || positions.len() != rows.len() {
        return Err(anyhow!("no placed line has these lists"));
    }
    draw_all(heap, forward, rows, positions)
}
