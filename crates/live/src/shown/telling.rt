// The incident told over a face.
ghost use Rattle.std.specs.Prelude.{◌≡◌, IsOkAnd, Some};
ghost use Rattle.live.specs.Shown.{ShownOver, on_the_panel};

use crate::font::{CODES, EM, GLYPHS};
use crate::shown::Shown;
use faces::{Face, RecordFace};
use incident::{BAR_BENEATH, LETTER, from_blank, tell};
use legends::Refusal;
use placement::Settings;

// Over any face it is never refused.
pub fn over<F: Face>(face: &F) -> Result<Shown, Refusal>
    ensures { IsOkAnd result (ShownOver (F.meaning face.now)) }
{
    let story = tell(face)?;
    let from_blank = from_blank(face, Settings::default(), [LETTER, BAR_BENEATH])?;
    Ok(Shown { story, from_blank })
}

// Over the panel font.
pub fn on_the_panel() -> Option<Shown>
    ensures { result ≡ Some on_the_panel }
{
    let face = RecordFace::new(EM, &GLYPHS, &CODES).ok()?;
    over(&face).ok()
}
