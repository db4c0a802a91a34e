// The box of a glyph: four edges in font units, left at most right and bottom at most top. No `Model`:
// definitions speak of edges (`edges_of`), as they do of those of records.
ghost use Rattle.std.specs.Prelude.{◌≤ℤ◌};

pub mod checked;

#[derive(Clone, Copy, PartialEq, Eq, Debug)]
pub struct Bounds {
    left: i16,
    bottom: i16,
    right: i16,
    top: i16,
    ghost left_right: { left ≤ℤ right },
    ghost bottom_top: { bottom ≤ℤ top },
}
