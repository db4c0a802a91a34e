// Scripts and the direction in which they are written. A script is the number of its four letters, 0 for none.
ghost use Rattle.std.specs.Prelude.{◌≡◌};
ghost use Rattle.placement.specs.Scripts.{from_script};

use crate::direction::Direction;

// Written from right to left. As numbers: a constant may not call `u32::from_be_bytes(*b"Adlm")`.
const RIGHT_TO_LEFT: [u32; 35] = [
    // Adlm
    0x41646C6D,
    // Arab
    0x41726162,
    // Armi
    0x41726D69,
    // Avst
    0x41767374,
    // Chrs
    0x43687273,
    // Cprt
    0x43707274,
    // Elym
    0x456C796D,
    // Gara
    0x47617261,
    // Hatr
    0x48617472,
    // Hebr
    0x48656272,
    // Khar
    0x4B686172,
    // Lydi
    0x4C796469,
    // Mand
    0x4D616E64,
    // Mani
    0x4D616E69,
    // Mend
    0x4D656E64,
    // Merc
    0x4D657263,
    // Mero
    0x4D65726F,
    // Narb
    0x4E617262,
    // Nbat
    0x4E626174,
    // Nkoo
    0x4E6B6F6F,
    // Orkh
    0x4F726B68,
    // Ougr
    0x4F756772,
    // Palm
    0x50616C6D,
    // Phli
    0x50686C69,
    // Phlp
    0x50686C70,
    // Phnx
    0x50686E78,
    // Prti
    0x50727469,
    // Rohg
    0x526F6867,
    // Samr
    0x53616D72,
    // Sarb
    0x53617262,
    // Sogd
    0x536F6764,
    // Sogo
    0x536F676F,
    // Syrc
    0x53797263,
    // Thaa
    0x54686161,
    // Yezi
    0x59657A69,
];

// Written in either direction.
const EITHER: [u32; 4] = [
    // Hung
    0x48756E67,
    // Ital
    0x4974616C,
    // Runr
    0x52756E72,
    // Tfng
    0x54666E67,
];

// The direction of a script, if it has one of its own.
pub fn from_script(script: u32) -> Option<Direction>
    ensures { result ≡ from_script script }
{
    if RIGHT_TO_LEFT.contains(&script) {
        return Some(Direction::RightToLeft);
    }
    if EITHER.contains(&script) {
        return None;
    }
    Some(Direction::LeftToRight)
}
