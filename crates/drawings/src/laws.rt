// The laws of drawing, for callers to rest on.
ghost use Rattle.drawings.specs.Laws.{DrawingsStand};

use looks::look_stands;

// What every drawing from blank keeps, and how a line's two lists are drawn.
pub fn drawings_stand()
    ensures { DrawingsStand }
{
    look_stands();
}
