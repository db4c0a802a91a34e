// What holds for a whole line.
ghost use Rattle.std.specs.Prelude.{◌≡◌};
ghost use Rattle.placement.specs.Text.{is_text_ltr};

use crate::direction::Direction;
use crate::scripts::from_script;

#[derive(Clone, Copy, Default, PartialEq, Eq, Debug)]
pub struct Settings {
    pub direction: Direction,
    // The number of four letters, the first one highest; 0 for none. A number, since the project wants the states of a line plain.
    pub script: u32,
    // Whether marks on a base without a box go back by their advances before these are zeroed.
    pub adjust: bool,
}

impl Settings {
    // Whether the text runs from left to right: as a horizontal line does, else as the script does.
    pub(crate) fn is_text_ltr(self) -> bool
        ensures { result ≡ is_text_ltr self }
    {
        match self.direction {
            Direction::LeftToRight => true,
            Direction::RightToLeft => false,
            _ => from_script(self.script) != Some(Direction::RightToLeft),
        }
    }
}
