// The walk along the marks of a group: each mark goes by what those before it left.
ghost use Rattle.std.specs.Prelude.{◌≡◌, ◌≤◌};
ghost use Rattle.placement.specs.Bases.{as_base};
ghost use Rattle.placement.specs.Components.{component};
ghost use Rattle.placement.specs.Lines.{cell};
ghost use Rattle.placement.specs.Room.{Light, Near, Within};
ghost use Rattle.placement.specs.Walks.{Known, corrected, ink, kept_at, next, out, passed, settled, settled_walk, to_component, to_run};
ghost use Rattle.signs.specs.Rows.{read_row};
ghost use Rattle.signs.specs.Signs.{row_of};

use crate::base::Base;
use crate::gap::Gap;
use crate::layout::Layout;
use crate::marks::Unplaced;
use crate::position::Position;
use crate::settings::Settings;
use crate::walk::Walk;
use faces::Face;
use signs::{Sign, SignRow};

// A correction after a mark that stays where it is. Contracts bound plain numbers of a walk (`Near`) and a row (`Light`).
fn corrected(forward: bool, by: i32, advance: i32) -> i32
    requires by { Within 40000000 by }
    requires advance { Within 65535 advance }
    ensures { result ≡ corrected forward by advance }
{
    if forward { by - advance } else { by + advance }
}

impl Walk {
    // A mark of class 0 stays, and the marks after it make up for its advances.
    fn pass(self, forward: bool, position: Position) -> Walk
        requires near { Near 256 self }
        requires light { Light position }
        ensures { result ≡ passed forward self position }
    {
        Walk {
            x: corrected(forward, self.x, position.x_advance),
            y: corrected(forward, self.y, position.y_advance),
            ..self
        }
    }

    // At the component of a mark: at another one, its box is that component's, and no run has begun.
    fn to_component(self, settings: Settings, base: Base, mark: Sign) -> Walk
        requires { Known (as_base base) self }
        ensures { result ≡ to_component settings (as_base base) (component (row_of base.sign) (row_of mark)) self }
    {
        let number = base.component_of(mark);
        if self.component == number {
            return self;
        }
        Walk {
            component: number,
            class: 0,
            around: base.share_of(settings.is_text_ltr(), number),
            ..self
        }
    }

    // In a run of a class: another one begins from the box of its component.
    fn to_run(self, class: u8) -> Walk
        ensures { result ≡ to_run class self }
    {
        if self.class == class {
            return self;
        }
        Walk {
            class,
            run: self.around,
            ..self
        }
    }

    // A mark drawn by its offsets: these are corrected, and it has no advances.
    fn drawn(self, position: Position) -> Position
        requires near { Near 256 self }
        requires x { Within 40000000 position.x_offset }
        requires y { Within 60033792 position.y_offset }
        ensures { result ≡ kept_at self position }
    {
        Position {
            x_offset: position.x_offset + self.x,
            y_offset: position.y_offset + self.y,
            ..Position::default()
        }
    }
}

// What a mark leaves: the walk for the next one, and its own position.
#[derive(Clone, Copy)]
pub(crate) struct Stepped {
    pub(crate) walk: Walk,
    pub(crate) position: Position,
}

impl<F: Face> Layout<'_, F> {
    // A mark in its run.
    fn settle(&self, walk: Walk, class: u8, glyph: u16, position: Position) -> Stepped
        requires near { Near 256 walk }
        requires light { Light position }
        ensures walk { result.walk ≡ settled_walk (F.meaning self.now.face.now) self.now.settings walk class (ink ((F.meaning self.now.face.now).bounds glyph)) }
        ensures position { result.position ≡ settled (F.meaning self.now.face.now) self.now.settings walk class (ink ((F.meaning self.now.face.now).bounds glyph)) position }
    {
        // No `?`: without a box the mark goes by its own offsets, and the run stays as it is.
        let Some(bounds) = self.face.bounds(glyph) else {
            return Stepped {
                walk,
                position: walk.drawn(position),
            };
        };
        let unplaced = Unplaced {
            run: walk.run,
            mark: bounds,
        };
        let placed = unplaced.place(Gap::of(self.face), class, self.settings.direction);
        Stepped {
            walk: Walk {
                run: placed.run,
                ..walk
            },
            position: walk.drawn(placed.position()),
        }
    }

    // One mark of a group, after a base with a box.
    pub(crate) fn step(&self, base: Base, walk: Walk, row: SignRow, position: Position) -> Stepped
        requires glyph { row.code ≤ 65535 }
        requires known { Known (as_base base) walk }
        requires near { Near 256 walk }
        requires light { Light position }
        ensures walk { result.walk ≡ next (F.meaning self.now.face.now) self.now.settings (as_base base) walk (cell (read_row row) position) }
        ensures position { result.position ≡ (out (F.meaning self.now.face.now) self.now.settings (as_base base) walk (cell (read_row row) position)).position }
    {
        let mark = Sign::read(row);
        let class = mark.class();
        if class == 0 {
            return Stepped {
                walk: walk.pass(self.settings.direction.is_forward(), position),
                position,
            };
        }
        let entered = walk.to_component(self.settings, base, mark).to_run(class);
        self.settle(entered, class, row.code as u16, position)
    }
}
