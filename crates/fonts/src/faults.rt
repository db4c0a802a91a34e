// What is wrong with a font file. A fault rises from a byte through its table to the file.
ghost use Rattle.std.specs.Prelude.{◌≡◌};
ghost use Rattle.fonts.specs.Faults.{in_table, number_of};

// The discriminants are the numbers by which callers know them. Each crate has faults of its own, so each converts them.
#[derive(Clone, Copy, PartialEq, Eq, Debug)]
pub enum Fault {
    // The em is below 16 or above 16384.
    EmOutsideLimits = 1,
    // A field or a table reaches past its end, or a list is short of its count.
    PastEnd = 5,
    // A version, a format or a count that is not known.
    Unknown = 6,
    // A table, or the pair of platform and encoding, is not there.
    Missing = 7,
    // A range starts above its end, or not above the last end.
    BadRange = 8,
    // The ascender lies below the descender.
    AscenderBelow = 9,
}

// A field that its bytes do not have whole.
#[derive(Clone, Copy, PartialEq, Eq, Debug)]
pub struct ByteFault {
    pub place: u64,
}

// A fault of a table, its place counted from the table's start.
#[derive(Clone, Copy, PartialEq, Eq, Debug)]
pub struct TableFault {
    pub fault: Fault,
    pub place: u64,
}

// A fault of a file: the tag of its table and the place in the file.
#[derive(Clone, Copy, PartialEq, Eq, Debug)]
pub struct FontFault {
    pub fault: Fault,
    pub tag: [u8; 4],
    pub place: u64,
}

impl From<Fault> for u8 {
    ghost from_gives = { λ e n. n ≡ number_of e };

    fn from(fault: Fault) -> u8 {
        fault as u8
    }
}

impl From<ByteFault> for TableFault {
    ghost from_gives = { λ e r. r ≡ in_table e };

    fn from(e: ByteFault) -> TableFault {
        TableFault {
            fault: Fault::PastEnd,
            place: e.place,
        }
    }
}
