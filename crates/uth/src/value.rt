// The fields of a file: integers and floats of 4 bytes, big-endian.
ghost use Rattle.std.specs.Prelude.{◌≡◌, ◌+◌, ◌≤◌, ◌<◌, length};
ghost use Rattle.meter.specs.Integer.{be_at};
ghost use Rattle.std.specs.Float.{binary32};
ghost use Rattle.std.specs.Float.Ieee.{of_bits};
ghost use Rattle.uth.specs.Value.{finite, value_of, value_at};

fn wide(b: u8) -> usize
    ensures { (result ≡ b) × (result < 256) }
{
    b as usize
}

// The number in the 4 bytes from `at` on.
pub(crate) fn word(bytes: &[u8], at: usize) -> usize
    requires { at + 4 ≤ length bytes.now }
    ensures { (result ≡ be_at bytes.now at 4) × (result < 4294967296) }
{
    ((wide(bytes[at]) * 256 + wide(bytes[at + 1])) * 256 + wide(bytes[at + 2])) * 256
        + wide(bytes[at + 3])
}

// The exponent is not all ones.
fn is_finite(bits: u32) -> bool
    ensures { result ≡ finite (of_bits binary32 bits) }
{
    bits % 0x8000_0000 < 0x7f80_0000
}

// A float, or none: what is not finite.
pub fn value_of(bits: u32) -> Option<f32>
    ensures { result ≡ value_of bits }
{
    if is_finite(bits) {
        return Some(f32::from_bits(bits));
    }
    None
}

pub(crate) fn value_at(bytes: &[u8], at: usize) -> Option<f32>
    requires { at + 4 ≤ length bytes.now }
    ensures { result ≡ value_at bytes.now at }
{
    value_of(word(bytes, at) as u32)
}
