// The 48 bits of a time, and the class and size of a record.
ghost use Rattle.std.specs.Prelude.{◌≡◌, ◌+◌, ◌≤◌, ◌<◌, length};
ghost use Rattle.meter.specs.Integer.{be_at};
ghost use Rattle.demands.specs.Product.{size};

// The number in the 2 bytes from `at` on.
fn pair(s: &[u8], at: usize) -> u64
    requires { at + 2 ≤ length s.now }
    ensures { (result ≡ be_at s.now at 2) × (result < 65536) }
{
    u64::from(s[at]) * 256 + u64::from(s[at + 1])
}

// The number in the 4 bytes from `at` on.
fn word(s: &[u8], at: usize) -> u64
    requires { at + 4 ≤ length s.now }
    ensures { (result ≡ be_at s.now at 4) × (result < 4294967296) }
{
    (pair(s, at) * 256 + u64::from(s[at + 2])) * 256 + u64::from(s[at + 3])
}

// The size in the header that starts at `at`.
pub(crate) fn size_in(s: &[u8], at: usize) -> usize
    requires { at + 8 ≤ length s.now }
    ensures { result ≡ size s.now at }
{
    word(s, at + 4) as usize
}

// The number in the 6 bytes from `at` on.
pub(crate) fn bits_at(s: &[u8], at: usize) -> u64
    requires { at + 6 ≤ length s.now }
    ensures { (result ≡ be_at s.now at 6) × (result < 281474976710656) }
{
    pair(s, at) * 0x1_0000_0000 + word(s, at + 2)
}
