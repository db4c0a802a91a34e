// Numbers in bytes, the highest byte first.
ghost use Rattle.std.specs.Prelude.{◌≡◌};
ghost use Rattle.fonts.specs.Bytes.{bytes_at, field, i16_at, u16_at, u32_at};

use crate::faults::ByteFault;

// A field of N bytes.
fn field<const N: usize>(bytes: &[u8], at: usize) -> Result<[u8; N], ByteFault>
    ensures { result ≡ field bytes.now at N (bytes_at bytes.now at N) }
{
    let place = at as u64;
    let rest = bytes.get(at..).ok_or(ByteFault { place })?;
    rest.first_chunk().copied().ok_or(ByteFault { place })
}

// A field of two bytes. This and the next two are a line each, and differ in the number that the bytes make.
pub(crate) fn read_u16(bytes: &[u8], at: usize) -> Result<u16, ByteFault>
    ensures { result ≡ u16_at bytes.now at }
{
    field(bytes, at).map(u16::from_be_bytes)
}

// A field of two bytes that holds a signed number.
pub(crate) fn read_i16(bytes: &[u8], at: usize) -> Result<i16, ByteFault>
    ensures { result ≡ i16_at bytes.now at }
{
    field(bytes, at).map(i16::from_be_bytes)
}

// A field of four bytes.
pub(crate) fn read_u32(bytes: &[u8], at: usize) -> Result<u32, ByteFault>
    ensures { result ≡ u32_at bytes.now at }
{
    field(bytes, at).map(u32::from_be_bytes)
}
