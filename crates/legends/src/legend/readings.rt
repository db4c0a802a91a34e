// What a legend says of itself.
ghost use Rattle.std.specs.Prelude.{◌≡◌};

use crate::legend::Legend;
use placement::Settings;

impl Legend {
    // How many signs it has; its lists are that long.
    pub fn len(&self) -> usize
        ensures { result ≡ self.now.len }
    {
        self.len
    }

    pub fn settings(&self) -> Settings
        ensures { result ≡ self.now.settings }
    {
        self.settings
    }
}
