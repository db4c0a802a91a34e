// What a line may hold.
ghost use Rattle.std.specs.Prelude.{◌≡◌, ◌^◌, ◌<◌};
ghost use Rattle.std.specs.List.{list_all};
ghost use Rattle.placement.specs.Bounded.{bounded, bounded_position, bounded_row, inside};

use crate::position::Position;
use signs::SignRow;

const MOST_GLYPH: u32 = 65535;

const MOST_ADVANCE: u32 = 65535;

const MOST_OFFSET: u32 = 40000000;

// Whether a value is at most so many units either way.
fn inside<const MOST: u32>(value: i32) -> bool
    requires { MOST < 2 ^ 31 }
    ensures { result ≡ inside MOST value }
{
    let most = MOST as i32;
    -most <= value && value <= most
}

// `&` and a constant for the limit: with no branch between them the four tests become one step of the processor.
fn is_bounded(position: Position) -> bool
    ensures { result ≡ bounded_position position }
{
    inside::<MOST_ADVANCE>(position.x_advance)
        & inside::<MOST_ADVANCE>(position.y_advance)
        & inside::<MOST_OFFSET>(position.x_offset)
        & inside::<MOST_OFFSET>(position.y_offset)
}

fn rows_bounded(rows: &[SignRow]) -> bool
    ensures { result ≡ list_all bounded_row rows.now }
{
    rows.iter().all(|row| row.code <= MOST_GLYPH)
}

fn positions_bounded(positions: &[Position]) -> bool
    ensures { result ≡ list_all bounded_position positions.now }
{
    positions.iter().all(|position| is_bounded(*position))
}

// Whether lists hold only what a line may hold.
pub fn all_bounded(rows: &[SignRow], positions: &[Position]) -> bool
    ensures { result ≡ bounded rows.now positions.now }
{
    rows_bounded(rows) && positions_bounded(positions)
}
