// Two signs drawn from blank: all of them go their route, and what comes of it is drawn.
ghost use Rattle.std.specs.Prelude.{◌≡◌, IsOkAnd};
ghost use Rattle.incident.specs.FromBlank.{book_of};
ghost use Rattle.legends.specs.Promise.{from_blank};

use drawings::{Item, Pen, Room, draw_line, drawings_stand};
use faces::Face;
use legends::Refusal;
use placement::{Position, Settings, bounds_stand, lines_stand, route_line};
use signs::SignRow;

// It is never refused. Two signs, and not any N: a longer array than a line may be would be refused.
pub fn from_blank<F: Face>(
    face: &F,
    settings: Settings,
    signs: [SignRow; 2],
) -> Result<[Item; 2], Refusal>
    ensures { IsOkAnd result (λ items. items ≡ from_blank (F.meaning face.now) (book_of settings signs)) }
{
    lines_stand();
    bounds_stand();
    drawings_stand();
    let mut rows = signs;
    let mut positions = [Position::default(); 2];
    let mut items = [Item::default(); 2];
    let mut pens = [Pen::default(); 2];
    route_line(face, settings, &mut rows, &mut positions)?;
    let mut room = Room {
        items: &mut items,
        pens: &mut pens,
    };
    draw_line(settings, &rows, &positions, &mut room)?;
    Ok(items)
}
