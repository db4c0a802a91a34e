// The number of a script, as the settings of a line have it.
ghost use Rattle.std.specs.Prelude.{◌≡◌};
ghost use Rattle.answer.specs.Scripts.{script_number};

// The number of four letters, the first one highest; 0 for "-", which names none.
pub fn script_number(text: &[u8]) -> Option<u32>
    ensures { result ≡ script_number text.now }
{
    match text {
        [b'-'] => Some(0),
        [a, b, c, d] => Some(u32::from_be_bytes([*a, *b, *c, *d])),
        _ => None,
    }
}
