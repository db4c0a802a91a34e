// The laws of legends, for callers to rest on.
ghost use Rattle.legends.specs.Laws.{HistoriesStand};
ghost use Rattle.legends.specs.Worked.{WorkedLegends};

use drawings::drawings_stand;
use placement::{bounds_stand, lines_stand};

// What holds after any list of calls: the lists follow the book, and a look shows the book and keeps its promise.
pub fn histories_stand()
    ensures { HistoriesStand }
{
    lines_stand();
    bounds_stand();
    drawings_stand();
}

// Worked books and spans.
pub fn worked_legends_stand()
    ensures { WorkedLegends }
{}
