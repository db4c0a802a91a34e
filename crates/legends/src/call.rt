// What may be asked of a legend that stands.
ghost use Rattle.std.specs.Prelude.{◌≡◌};
ghost use Rattle.legends.specs.Lending.{lent_of};

use placement::Settings;
use signs::SignRow;

// An enum and a match on it: calls are data, lent by the caller as a list.
// Each call is lent that many entries of each of the legend's lists, or all where there are fewer.
#[derive(Clone, Copy, PartialEq, Eq, Debug)]
pub enum Call {
    Put {
        lent: usize,
        place: usize,
        row: SignRow,
    },
    Turn {
        lent: usize,
        settings: Settings,
    },
    // Room is how many entries of the drawing and of the pen list it is lent.
    Draw {
        lent: usize,
        room: usize,
    },
}

impl Call {
    pub(crate) fn lent(self) -> usize
        ensures { result ≡ lent_of self }
    {
        match self {
            Call::Put { lent, .. } | Call::Turn { lent, .. } | Call::Draw { lent, .. } => lent,
        }
    }
}
