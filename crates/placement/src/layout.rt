// A face, and what holds for a whole line over it. The steps of a line are its methods.
ghost use Rattle.std.specs.Prelude.{◌≡◌};
ghost use Rattle.placement.specs.Directions.{is_horizontal};

use crate::settings::Settings;
use faces::Face;

#[derive(Drop)]
pub struct Layout<'a, F: Face> {
    pub(crate) face: &'a F,
    pub(crate) settings: Settings,
}

impl<F: Face> Layout<'_, F> {
    pub(crate) fn is_horizontal(&self) -> bool
        ensures { result ≡ is_horizontal self.now.settings.direction }
    {
        self.settings.direction.is_horizontal()
    }
}
