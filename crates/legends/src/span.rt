// The span of a place: the part of a line that a change at the place can reach.
ghost use Rattle.std.specs.Prelude.{◌≡◌, ◌<◌, ◌≤◌, length};
ghost use Rattle.legends.specs.Span.{end_before, span_of};

use placement::next_base;
use signs::{Sign, SignRow};

// The place of the last sign of a part that is no mark, or 0. The same test of one row is private in placement.
fn last_base(part: &[SignRow]) -> usize
    ensures { result ≡ end_before part.now (length part.now) }
{
    part.iter()
        .rposition(|row| !Sign::read(*row).is_mark())
        .unwrap_or(0)
}

// The ends of the span, the second one past its last sign: a pair by a rule of the project, which `put` takes apart at once.
pub(crate) fn span(rows: &[SignRow], place: usize) -> (usize, usize)
    requires { place < length rows.now }
    ensures value { result ≡ span_of rows.now place }
    ensures ends { (result.0 ≤ place) × (place < result.1) × (result.1 ≤ length rows.now) }
{
    (last_base(&rows[..place]), next_base(rows, place + 1))
}
